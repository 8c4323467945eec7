ghost use Rattle.std.specs.Prelude.{◌≡◌, ◌&&◌, ◌++◌, [], ◌∷◌, not, true, if◌then◌else◌, IfOk, OnOk};
ghost use Rattle.std.specs.BTreeSet.{contains, Updates};
ghost use Rattle.std.specs.List.{list_any};
ghost use Rattle.std.specs.Ordering.{nat_cmp};
ghost use Rattle.snap_tree.specs.Rows.{has_number};
ghost use Rattle.acc_tree.specs.Following.{rows_above, is_ancestor, are_apart, follows};
ghost use Rattle.acc_tree.specs.Seen.{seen_row, seen};

use crate::attributes::{Attribute, text_at};
use crate::references::first_found;
use crate::sights::law_of_climbing;
use aria_tables::AriaAttr;
use snap_tree::{List, NodeId, OutOfMemory, Row, Tree};
use std::alloc::Global;
use std::collections::BTreeSet;

// Whether a node stands above the children of this parent: it is the parent, or above that. It walks up by the
// parents' numbers.
fn is_above(tree: &Tree, n: NodeId, parent: Option<NodeId>) -> bool
    ensures { result ≡ list_any (has_number n) (rows_above (seen tree.now.trees) parent) }
{
    let Some(p) = parent else {
        return false;
    };
    law_of_climbing(tree);
    match tree.node(p) {
        Some(row) => row.id.0 == n.0 || is_above(tree, n, row.parent),
        None => false,
    }
}

// Whether the node n is an ancestor of m.
fn is_ancestor(tree: &Tree, n: NodeId, m: NodeId) -> bool
    ensures { result ≡ is_ancestor (seen tree.now.trees) n m }
{
    law_of_climbing(tree);
    match tree.node(m) {
        Some(row) => is_above(tree, n, row.parent),
        None => false,
    }
}

// Whether m is neither n nor an ancestor nor a descendant of n.
fn are_apart(tree: &Tree, n: NodeId, m: NodeId) -> bool
    ensures { result ≡ are_apart (seen tree.now.trees) n m }
{
    n.0 != m.0 && !is_ancestor(tree, m, n) && !is_ancestor(tree, n, m)
}

// Adds a node to those that n follows, where it is new and stands apart from n.
fn add_new(
    tree: &Tree,
    n: NodeId,
    before: &mut BTreeSet<u32>,
    nodes: &mut Vec<NodeId>,
    node: NodeId,
) -> Result<(), OutOfMemory>
    ensures before { OnOk result (Updates nat_cmp before.old before.new node.0 true) }
    ensures nodes { OnOk result (nodes.new.items ≡ nodes.old.items
        ++ (if not (contains nat_cmp before.old node.0) && are_apart (seen tree.now.trees) n node then node ∷ [] else [])) }
{
    let is_new = before.insert(node.0)?;
    if is_new && are_apart(tree, n, node) {
        nodes.push(node)?;
    }
    Ok(())
}

/// The nodes that an element follows by aria-owns, given its row.
///
/// Each is the first element in document order whose id is some word of the value, and neither the element
/// itself nor an ancestor nor a descendant of it. They stand in the order of the words, each once.
pub fn follows(alloc: Global, tree: &Tree, row: &Row) -> Result<List<NodeId>, OutOfMemory>
    ensures { IfOk result (λ nodes. nodes ≡ follows (seen tree.now.trees) (seen_row row.now)) }
{
    let mut nodes = Vec::new(alloc);
    let mut before = BTreeSet::new(alloc);
    let mut rest = text_at(row, Attribute::Aria(AriaAttr::Owns));
    while let Some((node, later)) = first_found(tree, rest) {
        add_new(tree, row.id, &mut before, &mut nodes, node)?;
        rest = later;
    }
    Ok(List::from_vec(nodes))
}
