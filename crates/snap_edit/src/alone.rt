ghost use Rattle.std.specs.Prelude.{◌≡◌, [], ◌∷◌, true, IfOk};
ghost use Rattle.snap_tree.specs.Grown.{names};
ghost use Rattle.snap_tree.specs.Rows.{is_text};
ghost use Rattle.snap_tree.specs.Faults.{rows_fault};
ghost use Rattle.snap_edit.specs.Edits.{text_fault, alone_fault};

use snap_tree::{MOST_NODES, OutOfMemory, Row, TreeFault, own_fault, tree_fault};
use std::alloc::Global;

// Whether a row names another as its parent.
fn names(row: &Row, parent: &Row) -> bool
    ensures { result ≡ names row.now parent.now }
{
    match row.parent {
        Some(named) => named.0 == parent.id.0,
        None => false,
    }
}

// The first fault of rows that follow a text.
fn fault_below(root: &Row, rows: &[Row]) -> Option<TreeFault>
    requires { is_text root.now ≡ true }
    ensures { result ≡ rows_fault (root.now ∷ []) rows.now }
{
    let (row, _) = rows.split_first()?;
    let node = row.id;
    if node.0 == root.id.0 {
        return Some(TreeFault::DoubleNumber { node });
    }
    if names(row, root) {
        return Some(TreeFault::TextHasKids { node });
    }
    Some(TreeFault::ParentUnknownOrNotOpen { node })
}

// The first fault of rows of which the first is a text, where that may be the root.
fn text_fault(root: &Row, rows: &[Row]) -> Option<TreeFault>
    requires { is_text root.now ≡ true }
    ensures { result ≡ text_fault root.now rows.now }
{
    if rows.len() >= MOST_NODES {
        return Some(TreeFault::TooMany);
    }
    if root.parent.is_some() {
        return Some(TreeFault::ParentUnknownOrNotOpen { node: root.id });
    }
    match own_fault(root) {
        Some(fault) => Some(fault),
        None => fault_below(root, rows),
    }
}

/// The first fault of rows taken alone, as a page's, but that a text may be the root.
#[tactic(auto, unfolding(crate::specs::Edits::alone_fault))]
pub(crate) fn alone_fault(alloc: Global, rows: &[Row]) -> Result<Option<TreeFault>, OutOfMemory>
    ensures { IfOk result (λ fault. fault ≡ alone_fault rows.now) }
{
    if let Some((root, later)) = rows.split_first() {
        if root.is_text() {
            return Ok(text_fault(root, later));
        }
    }
    tree_fault(alloc, rows)
}
