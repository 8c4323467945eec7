ghost use Rattle.std.specs.Prelude.{◌≡◌, ◌≤◌};
ghost use Rattle.snap_tree.specs.Trees.{count};
ghost use Rattle.acc_tree.specs.Seen.{seen_row, seen};
ghost use Rattle.rules_tables.specs.TableRows.{is_row_group, is_table_row, is_cell, row_count, neighbours};
ghost use Rattle.rules_tables.specs.Survey.{all_row_count};

use snap_tree::{Branch, Branches, Row};

/// Whether the node is a `thead`, `tbody` or `tfoot`.
#[tactic(auto, using(crate::proofs::Seeing::html_seen))]
pub(crate) fn is_row_group(row: &Row) -> bool
    ensures { result ≡ is_row_group (seen_row row.now) }
{
    row.is_html("tbody") || row.is_html("thead") || row.is_html("tfoot")
}

/// Whether the node is a `tr`.
#[tactic(auto, using(crate::proofs::Seeing::html_seen))]
pub(crate) fn is_table_row(row: &Row) -> bool
    ensures { result ≡ is_table_row (seen_row row.now) }
{
    row.is_html("tr")
}

/// Whether the node is a `td` or `th`.
#[tactic(auto, using(crate::proofs::Seeing::html_seen))]
pub(crate) fn is_cell(row: &Row) -> bool
    ensures { result ≡ is_cell (seen_row row.now) }
{
    row.is_html("td") || row.is_html("th")
}

/// How many rows are among the children of a row group.
#[tactic(auto, using(crate::proofs::Seeing::lent_first))]
pub(crate) fn row_count(group: &Branches<'_>) -> usize
    ensures rows { result ≡ row_count (seen group.now) }
    ensures few { result ≤ count group.now }
{
    let _most = group.len();
    let mut rows = 0;
    let mut next = group.first();
    while let Some(Branch { row, after, .. }) = next {
        if is_table_row(row) {
            rows += 1;
        }
        next = after.first();
    }
    rows
}

/// How many rows are among the next children of a table, before a row group.
#[tactic(auto, using(crate::proofs::Seeing::lent_first))]
pub(crate) fn neighbours(table: &Branches<'_>) -> usize
    ensures rows { result ≡ neighbours (seen table.now) }
    ensures few { result ≤ count table.now }
{
    let _most = table.len();
    let mut rows = 0;
    let mut next = table.first();
    while let Some(Branch { row, after, .. }) = next {
        if is_row_group(row) {
            return rows;
        }
        if is_table_row(row) {
            rows += 1;
        }
        next = after.first();
    }
    rows
}

/// How many rows are among the children of a table and of its row groups.
#[tactic(auto, using(crate::proofs::Seeing::lent_first))]
pub(crate) fn all_row_count(table: &Branches<'_>) -> usize
    ensures { result ≡ all_row_count (seen table.now) }
{
    let _most = table.len();
    let mut rows = 0;
    let mut next = table.first();
    while let Some(Branch { row, kids, after }) = next {
        if is_row_group(row) {
            rows += row_count(&kids);
        } else if is_table_row(row) {
            rows += 1;
        }
        next = after.first();
    }
    rows
}
