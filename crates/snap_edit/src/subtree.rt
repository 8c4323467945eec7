ghost use Rattle.std.specs.Prelude.{◌≡◌, ◌≤◌, ◌++◌, Result, IfOk, IfErr, OnOk, take, drop, vec_len};
ghost use Rattle.snap_tree.specs.Trees.{Trees, sizes_of};
ghost use Rattle.snap_tree.specs.Grown.{grown};
ghost use Rattle.snap_tree.specs.Places.{HasRun, run_below};
ghost use Rattle.snap_edit.specs.Places.{after_first, child_place, subtree_at, rest_without, hung_rows, IsPlaceIn};
ghost use Rattle.snap_edit.specs.declared.fault.EditKind.{EditKind};
ghost use Rattle.snap_edit.specs.Edits.{in_place};
ghost use Rattle.snap_edit.specs.Made.{IsPage, Declines};

use crate::fault::{EditKind, EditRefusal};
use crate::place::element_at;
use snap_tree::{Branches, NodeId, OutOfMemory, Row, run_below, sizes_of};
use std::alloc::Global;

/// Takes out the subtree at a place, and answers its rows.
pub(crate) fn take_out(
    alloc: Global,
    rows: &mut Vec<Row>,
    place: usize,
) -> Result<Vec<Row>, OutOfMemory>
    requires { HasRun place rows.old.items (sizes_of (grown rows.old.items)) }
    ensures subtree { IfOk result (λ subtree. subtree.items ≡ subtree_at rows.old.items place) }
    ensures rest { OnOk result (rows.new.items ≡ rest_without rows.old.items place) }
{
    let sizes = sizes_of(alloc, rows.as_slice())?;
    let size = sizes[place];
    let mut subtree = rows.split_off(place)?;
    let mut later = subtree.split_off(size)?;
    rows.append(&mut later)?;
    Ok(subtree)
}

// The trees after this many, or None where there are fewer.
fn after_first(trees: Branches<'_>, count: u32) -> Option<Branches<'_>>
    ensures { result ≡ after_first count trees.entry }
{
    let mut rest = trees;
    let mut left = count;
    while left > 0 {
        let branch = rest.first()?;
        rest = branch.after;
        left -= 1;
    }
    Some(rest)
}

// The place of the row where a child begins that has so many before it, given its parent's place; None
/// where the parent has fewer children.
fn place_below(
    alloc: Global,
    rows: &[Row],
    parent: usize,
    count: u32,
) -> Result<Option<usize>, OutOfMemory>
    requires { HasRun parent rows.now (sizes_of (grown rows.now)) }
    ensures { IfOk result (λ place. place ≡ child_place parent count (grown (run_below parent rows.now (sizes_of (grown rows.now))))) }
{
    let sizes = sizes_of(alloc, rows)?;
    let below = run_below(rows, sizes.as_slice(), parent);
    let all = below.len();
    match after_first(below, count) {
        Some(rest) => Ok(Some(parent + 1 + (all - rest.len()))),
        None => Ok(None),
    }
}

/// The place where a new child of a node begins that has so many before it; or its NoNode, NotElement or
/// PlaceOut.
pub(crate) fn place_in(
    alloc: Global,
    rows: &[Row],
    parent: NodeId,
    count: u32,
) -> Result<usize, EditRefusal>
    requires { IsPage rows.now }
    ensures place { IfOk result (λ place. IsPlaceIn rows.now parent count place) }
    ensures refused { IfErr result (λ f. (next : Result Trees EditKind) → Declines f (in_place (grown rows.now) parent count next)) }
{
    let above = element_at(rows, parent)?;
    match place_below(alloc, rows, above, count)? {
        Some(place) => Ok(place),
        None => Err(EditRefusal::Kind(EditKind::PlaceOut)),
    }
}

/// Puts rows in at a place, as a node's child.
pub(crate) fn put_in(
    rows: &mut Vec<Row>,
    place: usize,
    subtree: Vec<Row>,
    parent: NodeId,
) -> Result<(), OutOfMemory>
    requires { place ≤ vec_len rows.old }
    ensures { OnOk result (rows.new.items ≡ take place rows.old.items ++ (hung_rows parent subtree.items ++ drop place rows.old.items)) }
{
    let mut subtree = subtree;
    if let Some(root) = subtree.first_mut() {
        root.parent = Some(parent);
    }
    let mut later = rows.split_off(place)?;
    rows.append(&mut subtree)?;
    rows.append(&mut later)?;
    Ok(())
}
