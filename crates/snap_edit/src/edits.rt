ghost use Rattle.std.specs.Prelude.{◌≡◌, ◌≤◌, [], ◌∷◌, ◌++◌, length, None, Ok, IfOk, IfErr};
ghost use Rattle.snap_tree.specs.Trees.{with_trees};
ghost use Rattle.snap_tree.specs.Grown.{grown};
ghost use Rattle.snap_tree.specs.Faults.{tree_fault};
ghost use Rattle.snap_edit.specs.Edits.{effect, edited, edited_from, edited_all, Refuses};
ghost use Rattle.snap_edit.specs.Made.{Makes, Declines, fault_at, BreaksAt};

use crate::changes::{change_attr, set_facts, set_text};
use crate::edit::{Edit, MOST_EDITS};
use crate::fault::{EditFault, EditKind, EditRefusal};
use crate::moves::{insert, move_to, remove};
use snap_tree::{BuildFault, List, Raw, Row, Tree, copies_of, tree_fault};
use std::alloc::Global;

// Carries one edit out on a page's rows. The new rows aren't tried.
fn carry_out(alloc: Global, rows: Vec<Row>, edit: &Edit) -> Result<Vec<Row>, EditRefusal>
    requires { tree_fault rows.items ≡ None }
    ensures made { IfOk result (λ new. Makes new.items (effect (grown rows.items) edit.now)) }
    ensures refused { IfErr result (λ f. Declines f (effect (grown rows.items) edit.now)) }
{
    match edit {
        Edit::SetAttr { node, name, value } => change_attr(alloc, rows, *node, name, Some(value)),
        Edit::DropAttr { node, name } => change_attr(alloc, rows, *node, name, None),
        Edit::SetText { node, text } => set_text(alloc, rows, *node, text),
        Edit::SetFacts { node, facts } => set_facts(rows, *node, *facts),
        Edit::Insert {
            parent,
            place,
            rows: new,
        } => insert(alloc, rows, *parent, *place, new),
        Edit::Remove { node } => remove(alloc, rows, *node),
        Edit::Move {
            node,
            parent,
            place,
        } => move_to(alloc, rows, *node, *parent, *place),
    }
}

// Carries one edit out on a page's rows, and tries the new rows.
fn step(alloc: Global, rows: Vec<Row>, edit: &Edit) -> Result<Vec<Row>, EditRefusal>
    requires { tree_fault rows.items ≡ None }
    ensures sound { IfOk result (λ new. tree_fault new.items ≡ None) }
    ensures edited { IfOk result (λ new. edited (grown rows.items) edit.now ≡ Ok (grown new.items)) }
    ensures refused { IfErr result (λ f. Declines f (edited (grown rows.items) edit.now)) }
{
    let new = match carry_out(alloc, rows, edit) {
        Ok(new) => new,
        Err(refusal) => return Err(refusal),
    };
    match tree_fault(alloc, new.as_slice())? {
        Some(fault) => Err(EditRefusal::Kind(EditKind::Tree(fault))),
        None => Ok(new),
    }
}

// The fault of the edit of this index.
fn fault_at(index: u32, refusal: EditRefusal) -> EditFault
    ensures { result ≡ fault_at index refusal }
{
    match refusal {
        EditRefusal::Kind(kind) => EditFault::At { index, kind },
        EditRefusal::OutOfMemory => EditFault::OutOfMemory,
    }
}

// Carries edits out one after another, and tries the rows after each.
fn steps(alloc: Global, rows: Vec<Row>, edits: &[Edit]) -> Result<Vec<Row>, EditFault>
    requires sound { tree_fault rows.items ≡ None }
    requires few { length edits.now ≤ MOST_EDITS }
    ensures sound { IfOk result (λ new. tree_fault new.items ≡ None) }
    ensures edited { IfOk result (λ new. edited_from 0 edits.now (grown rows.items) ≡ Ok (grown new.items)) }
    ensures refused { IfErr result (λ f. Refuses f (edited_from 0 edits.now (grown rows.items))) }
{
    let mut rows = rows;
    let mut rest = edits;
    let mut index = 0;
    while let Some((edit, later)) = rest.split_first() {
        rows = match step(alloc, rows, edit) {
            Ok(new) => new,
            Err(refusal) => return Err(fault_at(index, refusal)),
        };
        rest = later;
        index += 1;
    }
    Ok(rows)
}

// The same page, but with an edit's rows, unless they have a fault.
fn rebuilt(alloc: Global, tree: &Tree, rows: Vec<Row>, index: u32) -> Result<Tree, EditFault>
    ensures tree { IfOk result (λ t. t ≡ with_trees tree.now (grown rows.items)) }
    ensures sound { IfOk result (λ t. tree_fault rows.items ≡ None) }
    ensures refused { IfErr result (λ f. BreaksAt index f (tree_fault rows.items)) }
{
    let address = tree.address().copy(alloc)?;
    let rows = List::from_vec(rows);
    match Tree::build(alloc, Raw { address, rows }) {
        Ok(new) => Ok(new.with_langs_of(tree)?),
        Err(BuildFault::Tree(fault)) => Err(EditFault::At {
            index,
            kind: EditKind::Tree(fault),
        }),
        Err(BuildFault::OutOfMemory) => Err(EditFault::OutOfMemory),
    }
}

// The page after at least one edit. The rows of the last are tried as the page is built.
fn apply_some(alloc: Global, tree: &Tree, earlier: &[Edit], last: &Edit) -> Result<Tree, EditFault>
    requires { length earlier.now ≤ MOST_EDITS }
    ensures edited { IfOk result (λ t. edited_from 0 (earlier.now ++ last.now ∷ []) tree.now.trees ≡ Ok t.trees) }
    ensures kept { IfOk result (λ t. t ≡ with_trees tree.now t.trees) }
    ensures refused { IfErr result (λ f. Refuses f (edited_from 0 (earlier.now ++ last.now ∷ []) tree.now.trees)) }
{
    let rows = copies_of(alloc, tree.rows())?;
    let rows = match steps(alloc, rows, earlier) {
        Ok(rows) => rows,
        Err(fault) => return Err(fault),
    };
    let index = earlier.len() as u32;
    let new = match carry_out(alloc, rows, last) {
        Ok(new) => new,
        Err(refusal) => return Err(fault_at(index, refusal)),
    };
    rebuilt(alloc, tree, new, index)
}

/// The page after a list of edits, carried out one after another. The given page stays, and the new one
/// has its address and its list of language subtags; an empty list gives an equal page.
///
/// It is refused with the index, counted from 0, and the kind of the first edit that can't be carried
/// out; a list of more than 200 edits with index 200 and TooManyEdits before anything else. Want of
/// memory is OutOfMemory.
pub fn apply(alloc: Global, tree: &Tree, edits: &[Edit]) -> Result<Tree, EditFault>
    ensures edited { IfOk result (λ t. edited_all tree.now.trees edits.now ≡ Ok t.trees) }
    ensures kept { IfOk result (λ t. t ≡ with_trees tree.now t.trees) }
    ensures refused { IfErr result (λ f. Refuses f (edited_all tree.now.trees edits.now)) }
{
    if edits.len() > MOST_EDITS {
        return Err(EditFault::At {
            index: MOST_EDITS as u32,
            kind: EditKind::TooManyEdits,
        });
    }
    match edits.split_last() {
        Some((last, earlier)) => apply_some(alloc, tree, earlier, last),
        None => Ok(tree.copy()?),
    }
}
