ghost use Rattle.std.specs.Prelude.{◌≡◌, None, Result, IfOk, IfErr, is_none};
ghost use Rattle.snap_tree.specs.Trees.{Trees};
ghost use Rattle.snap_tree.specs.Grown.{grown};
ghost use Rattle.snap_tree.specs.Spots.{Spot};
ghost use Rattle.snap_tree.specs.Faults.{tree_fault};
ghost use Rattle.snap_edit.specs.declared.edit.Edit.TheVariants.{Insert, Remove, Move};
ghost use Rattle.snap_edit.specs.declared.fault.EditKind.{EditKind};
ghost use Rattle.snap_edit.specs.Edits.{effect};
ghost use Rattle.snap_edit.specs.Places.{IsMovableAt, at_movable};
ghost use Rattle.snap_edit.specs.Made.{Makes, Declines};

use crate::alone::alone_fault;
use crate::fault::{EditKind, EditRefusal};
use crate::place::{node_at, place_of, row_at};
use crate::subtree::{place_in, put_in, take_out};
use crate::taken::has_taken;
use snap_tree::{List, NodeId, Row, copies_of};
use std::alloc::Global;

// Whether a page's row is the root's, which alone has no parent.
fn is_root(row: &Row) -> bool
    ensures { result ≡ is_none row.now.parent }
{
    row.parent.is_none()
}

// The place of a node that may be taken out; or its NoNode or RootMoved.
fn movable_at(rows: &[Row], node: NodeId) -> Result<usize, EditRefusal>
    requires { tree_fault rows.now ≡ None }
    ensures place { IfOk result (λ place. IsMovableAt rows.now node place) }
    ensures refused { IfErr result (λ f. (next : Spot → Result Trees EditKind) → Declines f (at_movable (grown rows.now) node next)) }
{
    let place = node_at(rows, node)?;
    if is_root(row_at(rows, place)) {
        return Err(EditRefusal::Kind(EditKind::RootMoved));
    }
    Ok(place)
}

/// Takes a node out, and all that is below it.
pub(crate) fn remove(
    alloc: Global,
    mut rows: Vec<Row>,
    node: NodeId,
) -> Result<Vec<Row>, EditRefusal>
    requires { tree_fault rows.items ≡ None }
    ensures made { IfOk result (λ new. Makes new.items (effect (grown rows.items) (Remove node))) }
    ensures refused { IfErr result (λ f. Declines f (effect (grown rows.items) (Remove node))) }
{
    let place = movable_at(rows.as_slice(), node)?;
    let _subtree = take_out(alloc, &mut rows, place)?;
    Ok(rows)
}

/// Puts rows in as a subtree.
pub(crate) fn insert(
    alloc: Global,
    mut rows: Vec<Row>,
    parent: NodeId,
    place: u32,
    new: &List<Row>,
) -> Result<Vec<Row>, EditRefusal>
    requires { tree_fault rows.items ≡ None }
    ensures made { IfOk result (λ all. Makes all.items (effect (grown rows.items) (Insert parent place new.now))) }
    ensures refused { IfErr result (λ f. Declines f (effect (grown rows.items) (Insert parent place new.now))) }
{
    let begin = place_in(alloc, rows.as_slice(), parent, place)?;
    if has_taken(alloc, rows.as_slice(), new.as_slice())? {
        return Err(EditRefusal::Kind(EditKind::NumberTaken));
    }
    if let Some(fault) = alone_fault(alloc, new.as_slice())? {
        return Err(EditRefusal::Kind(EditKind::Tree(fault)));
    }
    let subtree = copies_of(alloc, new.as_slice())?;
    put_in(&mut rows, begin, subtree, parent)?;
    Ok(rows)
}

/// Takes a node out with all that is below it, and puts it in elsewhere.
pub(crate) fn move_to(
    alloc: Global,
    mut rows: Vec<Row>,
    node: NodeId,
    parent: NodeId,
    place: u32,
) -> Result<Vec<Row>, EditRefusal>
    requires { tree_fault rows.items ≡ None }
    ensures made { IfOk result (λ new. Makes new.items (effect (grown rows.items) (Move node parent place))) }
    ensures refused { IfErr result (λ f. Declines f (effect (grown rows.items) (Move node parent place))) }
{
    let from = movable_at(rows.as_slice(), node)?;
    let subtree = take_out(alloc, &mut rows, from)?;
    if place_of(subtree.as_slice(), parent).is_some() {
        return Err(EditRefusal::Kind(EditKind::IntoItself));
    }
    let begin = place_in(alloc, rows.as_slice(), parent, place)?;
    put_in(&mut rows, begin, subtree, parent)?;
    Ok(rows)
}
