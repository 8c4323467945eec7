ghost use Rattle.std.specs.Prelude.{◌≡◌, map, IfOk};
ghost use Rattle.acc_tree.specs.Seen.{seen};
ghost use Rattle.rules_tables.specs.CellPlaces.{cell_places, place_of, shown};
ghost use Rattle.rules_tables.specs.Survey.{surveyed};

use crate::grid::Area;
use crate::survey::{PlacedCell, Survey};
use crate::tables::below;
use snap_tree::{Branches, List, NodeId, OutOfMemory, Tree};
use std::alloc::Global;

/// A cell, and the slots of the grid that it covers.
#[derive(Clone, Copy, Debug, PartialEq, Eq)]
pub struct CellPlace {
    pub cell: NodeId,
    pub area: Area,
}

/// Where the cells of a table are placed, in document order: of the node with this number, as HTML's "forming a table"
/// places what is below it. None is placed where the tree doesn't hold the number, nor from the first cell on that reaches
/// past the limit on the slots of a grid. Fails only for want of memory.
pub fn cell_places(
    alloc: Global,
    tree: &Tree,
    table: NodeId,
) -> Result<List<CellPlace>, OutOfMemory>
    ensures { IfOk result (λ places. places ≡ cell_places (seen tree.now.trees) table) }
{
    match below(tree, table) {
        Some(inside) => cells_inside(alloc, &inside),
        None => Ok(List::from_vec(Vec::new(alloc))),
    }
}

// Where the cells are placed of what is below a table.
#[tactic(auto, using(crate::proofs::Shown::shown_all))]
fn cells_inside(alloc: Global, inside: &Branches<'_>) -> Result<List<CellPlace>, OutOfMemory>
    ensures { IfOk result (λ places. places ≡ map place_of (surveyed (seen inside.now)).placed) }
{
    let survey = Survey::of(alloc, inside)?;
    Ok(List::from_vec(shown_cells(alloc, survey.placed.as_slice())?))
}

fn shown_cells(alloc: Global, cells: &[PlacedCell<'_>]) -> Result<Vec<CellPlace>, OutOfMemory>
    ensures { IfOk result (λ places. places.items ≡ map shown cells.now) }
{
    let mut places = Vec::new(alloc);
    for placed in cells {
        places.push(CellPlace {
            cell: placed.cell.id,
            area: placed.area,
        })?;
    }
    Ok(places)
}
