//! The table of pages: how a row is written, and how it is read.

ghost use Rattle.std.specs.Prelude.{◌≡◌, pos, Some, Ok as ok, IfOk, IfSome};
ghost use Rattle.sqlite_value.specs.Order.{column};
ghost use Rattle.sql_rows.specs.Tables.{name_at};
ghost use Rattle.snap_json.specs.Pages.{kept_tree};
ghost use Rattle.keep_core.specs.Fits.{FitsHead, FitsPage};
ghost use Rattle.store_tables.specs.Pages.{head_from, page_shown, heads_shown};

use crate::cells;
use crate::fault::StoreFault;
use crate::memo::Memo;
use keep_core::{MOST_REVISION, Page, PageHead, is_name};
use snap_json::write_snapshot;
use snap_tree::{List, Text};
use sqlite::Row;
use std::alloc::Global;

/// What is written of a page beside its name and who sent it.
#[derive(Drop)]
pub struct PageValues {
    pub rev: i64,
    pub snapshot: Vec<u8>,
}

/// What is written of a page.
///
/// # Errors
///
/// `Failed` where the revision is above the greatest number of a column, and `OutOfMemory`.
#[tactic(auto, using(crate::proofs::Bare::kept_bare))]
pub fn page_values(alloc: Global, page: &Page) -> Result<PageValues, StoreFault>
    requires fits { FitsPage page.now }
    ensures rev { IfOk result (λ v. v.rev ≡ pos page.now.head.rev) }
    ensures snapshot { IfOk result (λ v. kept_tree v.snapshot.items ≡ ok page.now.tree) }
{
    let rev = cells::column_number(page.head.rev)?;
    let snapshot = write_snapshot(alloc, &page.tree)?;
    Ok(PageValues { rev, snapshot })
}

#[tactic(auto, unfolding(crate::specs::Pages::head_from))]
fn head(row: &Row) -> Result<PageHead, StoreFault>
    ensures reads { IfOk result (λ h. head_from (name_at 0 row.now) (column row.now 1) (column row.now 2) ≡ Some h) }
    ensures fits { IfOk result FitsHead }
{
    let page = cells::name(row, 0)?;
    let rev = cells::number(row, 1, MOST_REVISION)?;
    let hand = cells::text(row, 2)?;
    Ok(PageHead { page, rev, hand })
}

/// The heads of pages.
pub fn read_heads(alloc: Global, rows: &[Row]) -> Result<List<PageHead>, StoreFault>
    ensures { IfOk result (λ hs. heads_shown rows.now ≡ Some hs) }
{
    let mut heads = Vec::new(alloc);
    for row in rows {
        heads.push(head(row)?)?;
    }
    Ok(List::from_vec(heads))
}

/// The page of a name, by what is shown of its row, if there is one. Its snapshot is remembered.
#[tactic(auto, unfolding(crate::specs::Pages::page_from, crate::specs::Pages::head_from))]
pub fn read_page(
    alloc: Global,
    memo: &mut Memo,
    name: &Text,
    rows: &[Row],
) -> Result<Option<Page>, StoreFault>
    ensures reads { IfOk result (λ found. page_shown name.now rows.now ≡ Some found) }
    ensures fits { IfOk result (λ found. IfSome found FitsPage) }
{
    let Some(row) = rows.first() else {
        return Ok(None);
    };
    if !is_name(name) {
        return Err(StoreFault::Failed);
    }
    let rev = cells::number(row, 0, MOST_REVISION)?;
    let hand = cells::text(row, 1)?;
    let tree = cells::tree(alloc, memo, row, 2)?;
    let page = name.copy(alloc)?;
    let head = PageHead { page, rev, hand };
    Ok(Some(Page { head, tree }))
}
