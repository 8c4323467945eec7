ghost use Rattle.std.specs.Prelude.{◌≡◌, IfOk};
ghost use Rattle.std.specs.List.{list_any};
ghost use Rattle.std.specs.Ordering.{nat_cmp};
ghost use Rattle.std.specs.BTreeSet.{contains};
ghost use Rattle.snap_tree.specs.Grown.{grown};
ghost use Rattle.snap_edit.specs.Edits.{has_taken};
ghost use Rattle.snap_edit.specs.Taken.{AreNumbers};

use snap_tree::{OutOfMemory, Row};
use std::alloc::Global;
use std::collections::BTreeSet;

// The numbers of rows.
fn numbers_of(alloc: Global, rows: &[Row]) -> Result<BTreeSet<u32>, OutOfMemory>
    ensures { IfOk result (λ numbers. AreNumbers numbers rows.now) }
{
    let mut numbers = BTreeSet::new(alloc);
    for row in rows {
        numbers.insert(row.id.0)?;
    }
    Ok(numbers)
}

fn has_any(numbers: &BTreeSet<u32>, rows: &[Row]) -> bool
    ensures { result ≡ list_any (λ r. contains nat_cmp numbers.now r.id.0) rows.now }
{
    rows.iter().any(|row| numbers.contains(&row.id.0))
}

/// Whether the page holds the number of one of the new rows.
pub(crate) fn has_taken(alloc: Global, rows: &[Row], new: &[Row]) -> Result<bool, OutOfMemory>
    ensures { IfOk result (λ taken. taken ≡ has_taken (grown rows.now) new.now) }
{
    let numbers = numbers_of(alloc, new)?;
    Ok(has_any(&numbers, rows))
}
