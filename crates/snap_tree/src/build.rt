ghost use Rattle.std.specs.Prelude.{◌≡◌, [], ◌∷◌, ◌++◌, reverse, IfOk, IfErr, OnOk};
ghost use Rattle.snap_tree.specs.Faults.{place_fault, row_fault, rows_fault};
ghost use Rattle.snap_tree.specs.Places.{IsPlaces};
ghost use Rattle.snap_tree.specs.Opened.{from_opened, is_below, HasEntered, Breaks};

use crate::fault::{BuildFault, TreeFault};
use crate::limits::own_fault;
use crate::row::{NodeId, Row, is_number};
use number_tables::NumberTable;
use std::alloc::Global;

/// How many nodes a page has at the most.
pub const MOST_NODES: usize = 10_000;

/// How deep a page is at the most, where the root has depth 1.
pub const MOST_DEPTH: usize = 128;

// A node that is open for one more row: it stands on the path to the row before.
#[derive(Clone, Copy)]
struct Opened {
    id: NodeId,
    is_text: bool,
}

// Closes the nodes below the row's parent, or all where the parent isn't open.
fn close_to_parent(path: &mut Vec<Opened>, row: &Row)
    ensures { reverse path.new.items ≡ from_opened row.now (reverse path.old.items) }
{
    while let Some(last) = path.last() {
        if is_number(row.parent, last.id) {
            return;
        }
        path.pop();
    }
}

fn is_below_text(path: &[Opened]) -> bool
    ensures { result ≡ is_below (reverse path.now) }
{
    match path.last() {
        Some(parent) => parent.is_text,
        None => false,
    }
}

// The first fault of a row whose number is new.
#[tactic(auto, unfolding(crate::specs::Faults::place_fault))]
fn place_fault(first: bool, row: &Row, above: usize, below_text: bool) -> Option<TreeFault>
    ensures { result ≡ place_fault first row.now above below_text }
{
    let node = row.id;
    let misplaced = if first {
        row.parent.is_some()
    } else {
        above == 0
    };
    if misplaced {
        return Some(TreeFault::ParentUnknownOrNotOpen { node });
    }
    if first & row.is_text() {
        return Some(TreeFault::RootNotElement { node });
    }
    if below_text {
        return Some(TreeFault::TextHasKids { node });
    }
    if above >= MOST_DEPTH {
        return Some(TreeFault::TooDeep { node });
    }
    own_fault(row)
}

// Takes in the next row, or names its first fault.
fn enter(
    places: &mut NumberTable<usize>,
    path: &mut Vec<Opened>,
    earlier: &[Row],
    row: &Row,
) -> Result<(), BuildFault>
    requires { HasEntered places.old path.old.items earlier.now }
    ensures entered { OnOk result (HasEntered places.new path.new.items (earlier.now ++ row.now ∷ [])) }
    ensures sound { OnOk result (row_fault earlier.now row.now ≡ None) }
    ensures fault { IfErr result (λ f. Breaks f (row_fault earlier.now row.now)) }
{
    let is_new = places.put(row.id.0, earlier.len())?;
    if !is_new {
        return Err(BuildFault::Tree(TreeFault::DoubleNumber { node: row.id }));
    }
    close_to_parent(path, row);
    let below_text = is_below_text(path);
    if let Some(fault) = place_fault(earlier.is_empty(), row, path.len(), below_text) {
        return Err(BuildFault::Tree(fault));
    }
    path.push(Opened {
        id: row.id,
        is_text: row.is_text(),
    })?;
    Ok(())
}

// The place of each number, or the first fault of the rows.
pub(crate) fn places_of(alloc: Global, rows: &[Row]) -> Result<NumberTable<usize>, BuildFault>
    ensures places { IfOk result (λ places. IsPlaces places rows.now) }
    ensures sound { OnOk result (rows_fault [] rows.now ≡ None) }
    ensures fault { IfErr result (λ f. Breaks f (rows_fault [] rows.now)) }
{
    let mut places = NumberTable::with_room(alloc, rows.len())?;
    let mut path = Vec::new(alloc);
    for (place, row) in rows.iter().enumerate() {
        let (earlier, _) = rows.split_at(place);
        enter(&mut places, &mut path, earlier, row)?;
    }
    Ok(places)
}
