ghost use Rattle.std.specs.Prelude.{◌≡◌, ◌≤◌};
ghost use Rattle.std.specs.Option.{option_copied};
ghost use Rattle.acc_tree.specs.Seen.{seen_row};
ghost use Rattle.rules_tables.specs.Spans.{span, columns, rows_within, column_span, row_span};

use acc_tree::{Attribute, attr, whole_number};
use snap_tree::{Row, Text};

/// The most columns that a cell spans.
pub(crate) const MOST_COLUMNS: u64 = 1_000;

/// The most rows that a cell spans.
pub(crate) const MOST_ROWS: u64 = 65_534;

// The number that a whole value writes, behind white space.
fn span(value: Option<&Text>) -> Option<u64>
    ensures { result ≡ span (option_copied value.entry) }
{
    match value {
        Some(text) => whole_number(text.as_str().trim_start()),
        None => None,
    }
}

fn columns(span: Option<u64>) -> usize
    ensures columns { result ≡ columns span }
    ensures some { 1 ≤ result }
    ensures few { result ≤ MOST_COLUMNS }
{
    match span {
        Some(0) | None => 1,
        Some(n) => n.min(MOST_COLUMNS) as usize,
    }
}

fn rows_within(left: usize, span: Option<u64>) -> usize
    ensures rows { result ≡ rows_within left span }
    ensures cut { result ≤ left }
{
    match span {
        Some(0) => left,
        Some(n) => (n.min(MOST_ROWS) as usize).min(left),
        None => left.min(1),
    }
}

/// How many columns a cell spans, from 1 to 1,000.
pub(crate) fn column_span(cell: &Row) -> usize
    ensures columns { result ≡ column_span (seen_row cell.now) }
    ensures some { 1 ≤ result }
    ensures few { result ≤ MOST_COLUMNS }
{
    columns(span(attr(cell, Attribute::Colspan)))
}

/// How many rows a cell spans, where so many are left in its row group.
pub(crate) fn row_span(left: usize, cell: &Row) -> usize
    ensures rows { result ≡ row_span left (seen_row cell.now) }
    ensures cut { result ≤ left }
{
    rows_within(left, span(attr(cell, Attribute::Rowspan)))
}
