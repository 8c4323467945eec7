ghost use Rattle.std.specs.Prelude.{◌≡◌, ◌-◌, drop, OnOk};
ghost use Rattle.acc_tree.specs.Seen.{seen_row};
ghost use Rattle.rules_tables.specs.Grid.{area_at};
ghost use Rattle.rules_tables.specs.Survey.{free_from, raised, raised_all, next_area, within};

use crate::spans::{column_span, row_span};
use snap_tree::{OutOfMemory, Row};

/// The slots that a cell covers: the rows from the top, and the columns from the left. The bottom is the
/// first row below it, the right the first column behind it.
#[derive(Clone, Copy, Debug, PartialEq, Eq)]
pub struct Area {
    pub top: usize,
    pub bottom: usize,
    pub left: usize,
    pub right: usize,
}

// The first column from this one on that is free in the row.
fn first_free(columns: &[usize], row: usize, from: usize) -> usize
    ensures { result ≡ free_from (drop from columns.now) row from }
{
    let mut column = from;
    while column < columns.len() && row < columns[column] {
        column += 1;
    }
    column
}

// The area of a cell that begins in this column of the row, unless it reaches past the limit.
fn area_within(most: usize, row: usize, end: usize, left: usize, cell: &Row) -> Option<Area>
    ensures { result ≡ within most (area_at row end left (seen_row cell.now)) }
{
    let columns = column_span(cell);
    if columns > most.saturating_sub(left) {
        return None;
    }
    Some(Area {
        top: row,
        bottom: row + row_span(end.saturating_sub(row), cell),
        left,
        right: left + columns,
    })
}

/// Where the next cell of a row comes, unless it reaches past the limit. Columns are free from the row on
/// that they say.
pub(crate) fn next_area(
    columns: &[usize],
    most: usize,
    row: usize,
    end: usize,
    from: usize,
    cell: &Row,
) -> Option<Area>
    ensures { result ≡ within most (next_area columns.now row end from (seen_row cell.now)) }
{
    area_within(most, row, end, first_free(columns, row, from), cell)
}

fn raise(columns: &mut Vec<usize>, column: usize, bottom: usize) -> Result<(), OutOfMemory>
    ensures { OnOk result (columns.new.items ≡ raised columns.old.items column bottom) }
{
    if column < columns.len() {
        columns[column] = columns[column].max(bottom);
    } else {
        columns.push(bottom)?;
    }
    Ok(())
}

/// Notes that an area is covered: its columns are free from its bottom on.
#[tactic(auto, using(crate::proofs::Covering::raised_more, crate::proofs::Covering::raised_end))]
pub(crate) fn cover(columns: &mut Vec<usize>, area: Area) -> Result<(), OutOfMemory>
    ensures { OnOk result (columns.new.items
        ≡ raised_all columns.old.items area.left (area.right - area.left) area.bottom) }
{
    for column in area.left..area.right {
        raise(columns, column, area.bottom)?;
    }
    Ok(())
}
