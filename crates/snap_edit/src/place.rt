ghost use Rattle.std.specs.Prelude.{◌≡◌, ◌<◌, length, Result, IfOk, IfErr, slice_index_or};
ghost use Rattle.snap_tree.specs.Trees.{Trees};
ghost use Rattle.snap_tree.specs.Grown.{grown};
ghost use Rattle.snap_tree.specs.Spots.{Spot};
ghost use Rattle.snap_tree.specs.Places.{place_from};
ghost use Rattle.snap_edit.specs.declared.fault.EditKind.{EditKind};
ghost use Rattle.snap_edit.specs.Edits.{at};
ghost use Rattle.snap_edit.specs.Places.{IsNodeAt, IsElementAt, of_element};
ghost use Rattle.snap_edit.specs.Made.{Declines};

use crate::fault::{EditKind, EditRefusal};
use snap_tree::{NodeId, Row};

/// The place of a node's row; None where the rows don't hold the number.
pub(crate) fn place_of(rows: &[Row], n: NodeId) -> Option<usize>
    ensures { result ≡ place_from 0 n.0 rows.now }
{
    let mut place = 0;
    let mut rest = rows;
    while let Some((row, later)) = rest.split_first() {
        if row.id.0 == n.0 {
            return Some(place);
        }
        place += 1;
        rest = later;
    }
    None
}

/// The row at a place.
pub(crate) fn row_at(rows: &[Row], place: usize) -> &Row
    requires { place < length rows.now }
    ensures { result.now ≡ slice_index_or rows.now place result.now }
{
    &rows[place]
}

/// The place of a node's row, or its NoNode.
pub(crate) fn node_at(rows: &[Row], node: NodeId) -> Result<usize, EditRefusal>
    ensures place { IfOk result (λ place. IsNodeAt rows.now node place) }
    ensures refused { IfErr result (λ f. (next : Spot → Result Trees EditKind) → Declines f (at (grown rows.now) node next)) }
{
    match place_of(rows, node) {
        Some(place) => Ok(place),
        None => Err(EditRefusal::Kind(EditKind::NoNode)),
    }
}

/// The place of an element's row; or the node's NoNode or NotElement.
pub(crate) fn element_at(rows: &[Row], node: NodeId) -> Result<usize, EditRefusal>
    ensures place { IfOk result (λ place. IsElementAt rows.now node place) }
    ensures refused { IfErr result (λ f. (next : Result Trees EditKind) → Declines f (of_element (grown rows.now) node next)) }
{
    let place = node_at(rows, node)?;
    if row_at(rows, place).is_text() {
        return Err(EditRefusal::Kind(EditKind::NotElement));
    }
    Ok(place)
}
