ghost use Rattle.std.specs.Prelude.{◌≡◌, ◌+◌, ◌≤◌, IfOk, OnOk};
ghost use Rattle.acc_tree.specs.Seen.{seen_row, seen};
ghost use Rattle.rules_tables.specs.TableRows.{cells_in, row_count, group_rows, table_rows};
ghost use Rattle.rules_tables.specs.Survey.{most_columns};

use crate::grid::{Area, cover, next_area};
use crate::table_rows::{
    all_row_count, is_cell, is_row_group, is_table_row, neighbours, row_count,
};
use snap_tree::{Branch, Branches, OutOfMemory, Row};
use std::alloc::Global;

/// The most slots of a grid that is searched.
pub(crate) const MOST_SLOTS: usize = 100_000;

// The greatest width of a grid of so many rows that isn't large.
fn most_columns(rows: usize) -> usize
    ensures { result ≡ most_columns rows }
{
    MOST_SLOTS / rows.max(1)
}

/// A cell, and the slots that it covers.
#[derive(Clone, Copy, Drop)]
pub(crate) struct PlacedCell<'a> {
    pub(crate) cell: &'a Row,
    pub(crate) area: Area,
}

/// What a pass over the cells of a table has noted.
#[derive(Drop)]
pub(crate) struct Survey<'a> {
    // For each column the row from which on it is free.
    columns: Vec<usize>,
    // The end of the cell before in the row.
    column: usize,
    pub(crate) cells: usize,
    /// The cells with their places, in document order.
    pub(crate) placed: Vec<PlacedCell<'a>>,
    /// The grid is wider than the limit. Then cells are only counted.
    pub(crate) wide: bool,
}

impl<'a> Survey<'a> {
    ghost use Rattle.rules_tables.specs.Survey.{noted, nothing_noted, placed_at, fitted};
    ghost use Rattle.rules_tables.specs.Survey.{after_cell, after_row, after_rows, surveyed};

    /// Nothing is noted yet.
    fn new(alloc: Global) -> Self
        ensures { noted result ≡ nothing_noted }
    {
        Survey {
            columns: Vec::new(alloc),
            column: 0,
            cells: 0,
            placed: Vec::new(alloc),
            wide: false,
        }
    }

    fn place(&mut self, cell: &'a Row, area: Area) -> Result<(), OutOfMemory>
        ensures { OnOk result (noted self.new ≡ placed_at (noted self.old) (seen_row cell.now) area) }
    {
        cover(&mut self.columns, area)?;
        self.column = area.right;
        self.placed.push(PlacedCell { cell, area })?;
        Ok(())
    }

    fn fit(&mut self, cell: &'a Row, area: Option<Area>) -> Result<(), OutOfMemory>
        ensures { OnOk result (noted self.new
            ≡ fitted (noted self.old) (seen_row cell.now) area) }
    {
        match area {
            Some(area) => self.place(cell, area),
            None => {
                self.wide = true;
                Ok(())
            }
        }
    }

    fn see_cell(
        &mut self,
        most: usize,
        row: usize,
        end: usize,
        cell: &'a Row,
    ) -> Result<(), OutOfMemory>
        ensures { OnOk result (noted self.new
            ≡ after_cell most row end (noted self.old) (seen_row cell.now)) }
    {
        self.cells = self.cells.saturating_add(1);
        if self.wide {
            return Ok(());
        }
        let area = next_area(self.columns.as_slice(), most, row, end, self.column, cell);
        self.fit(cell, area)
    }

    fn see_row(
        &mut self,
        most: usize,
        row: usize,
        end: usize,
        kids: Branches<'a>,
    ) -> Result<(), OutOfMemory>
        ensures { OnOk result (noted self.new ≡ after_row most row end
            (noted self.old) (cells_in (seen kids.entry))) }
    {
        self.column = 0;
        let mut rest = kids;
        while let Some(branch) = rest.first() {
            if is_cell(branch.row) {
                self.see_cell(most, row, end, branch.row)?;
            }
            rest = branch.after;
        }
        Ok(())
    }

    fn see_group(
        &mut self,
        most: usize,
        first: usize,
        end: usize,
        group: Branches<'a>,
    ) -> Result<(), OutOfMemory>
        requires { first + row_count (seen group) ≡ end }
        ensures { OnOk result (noted self.new ≡ after_rows most first
            (noted self.old) (group_rows end (seen group.entry))) }
    {
        let mut number = first;
        let mut rest = group;
        while let Some(Branch { row, kids, after }) = rest.first() {
            if is_table_row(row) {
                self.see_row(most, number, end, kids)?;
                number += 1;
            }
            rest = after;
        }
        Ok(())
    }

    #[tactic(auto, using(crate::proofs::Covering::after_both, crate::proofs::Seeing::lent_first))]
    fn see_table(&mut self, most: usize, table: &Branches<'a>) -> Result<(), OutOfMemory>
        ensures { OnOk result (noted self.new ≡ after_rows most 0
            (noted self.old) (table_rows 0 (seen table.now))) }
    {
        let _most = table.len();
        let mut number = 0;
        let mut end = 0;
        let mut next = table.first();
        while let Some(Branch { row, kids, after }) = next {
            if is_row_group(row) {
                let group_end = number + row_count(&kids);
                self.see_group(most, number, group_end, kids)?;
                number = group_end;
            } else if is_table_row(row) {
                if end <= number {
                    end = number + 1 + neighbours(&after);
                }
                self.see_row(most, number, end, kids)?;
                number += 1;
            }
            next = after.first();
        }
        Ok(())
    }

    /// Goes over the cells of a table, given what is below it, and places each.
    pub(crate) fn of(alloc: Global, table: &Branches<'a>) -> Result<Self, OutOfMemory>
        ensures { IfOk result (λ s. noted s ≡ surveyed (seen table.now)) }
    {
        let mut survey = Survey::new(alloc);
        survey.see_table(most_columns(all_row_count(table)), table)?;
        Ok(survey)
    }
}
