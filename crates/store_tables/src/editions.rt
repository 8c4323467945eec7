//! The table of editions: how its rows are read. What is written is a number as it stands.

ghost use Rattle.std.specs.Prelude.{◌≡◌, Some, IfOk};
ghost use Rattle.store_tables.specs.Editions.{last_number, edition_shown, kept_edition};

use crate::cells;
use crate::fault::StoreFault;
use keep_core::MOST_REVISION;
use sqlite::Row;

fn last_number(found: Option<u64>, rows: &[Row]) -> Result<Option<u64>, StoreFault>
    ensures { IfOk result (λ last. last_number found rows.now ≡ Some last) }
{
    let Some((first, rest)) = rows.split_first() else {
        return Ok(found);
    };
    let number = cells::number(first, 0, MOST_REVISION)?;
    last_number(Some(number), rest)
}

/// The greatest of the editions that are noted, if one is.
pub fn read_edition(rows: &[Row]) -> Result<Option<u64>, StoreFault>
    ensures { IfOk result (λ found. edition_shown rows.now ≡ Some found) }
{
    last_number(None, rows)
}

/// The edition that is kept: the greatest that is noted, and 0 where none is.
pub fn read_kept_edition(rows: &[Row]) -> Result<u64, StoreFault>
    ensures { IfOk result (λ number. kept_edition rows.now ≡ Some number) }
{
    let found = read_edition(rows)?;
    Ok(found.unwrap_or(0))
}
