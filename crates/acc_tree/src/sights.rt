ghost use Rattle.std.specs.Prelude.{◌≡◌, ◌++◌, option_map, IfOk, OnOk};
ghost use Rattle.std.specs.Option.{option_copied};
ghost use Rattle.acc_tree.specs.Seen.{seen_row, seen};
ghost use Rattle.acc_tree.specs.Sights.{IsClimbed, sight_of, seen_sight, row_of, above_children, aboves_in, aboves};

use crate::frames::under;
use crate::lent::Above;
use snap_tree::{Branches, List, NodeId, OutOfMemory, Row, Tree, laws_of_spots};
use std::alloc::Global;

/// A node in its tree: its row, the trees below it, and what is above it.
#[derive(Drop)]
pub struct Sight<'a> {
    pub row: &'a Row,
    pub below: Branches<'a>,
    pub above: Above<'a>,
}

// The tree's nodes can be climbed by their parents' numbers. It does nothing: the clause is what it is for.
pub(crate) fn law_of_climbing(tree: &Tree)
    ensures { IsClimbed tree.now.trees }
{
    laws_of_spots();
    let _rows = tree.rows();
}

/// What is above the children of a node, given its number; nothing is above the roots, nor above the
/// children of a number that the tree doesn't hold. It walks up by the parents' numbers.
pub fn above_children(tree: &Tree, parent: Option<NodeId>) -> Above<'_>
    ensures { result ≡ above_children (seen tree.now.trees) parent }
{
    let Some(n) = parent else {
        return Above::nothing();
    };
    law_of_climbing(tree);
    match tree.node(n) {
        Some(row) => under(&above_children(tree, row.parent), row),
        None => Above::nothing(),
    }
}

/// The row of a number; None exactly where the tree doesn't hold it.
pub fn row_of(tree: &Tree, n: NodeId) -> Option<&Row>
    ensures { option_map seen_row (option_copied result) ≡ row_of (seen tree.now.trees) n }
{
    tree.node(n)
}

/// The sight of a number; None exactly where the tree doesn't hold it. It takes no memory.
pub fn sight_of(tree: &Tree, n: NodeId) -> Option<Sight<'_>>
    ensures { option_map seen_sight result ≡ sight_of (seen tree.now.trees) n }
{
    law_of_climbing(tree);
    match tree.node(n) {
        Some(row) => match tree.below(n) {
            Some(below) => Some(Sight {
                row,
                below,
                above: above_children(tree, row.parent),
            }),
            None => None,
        },
        None => None,
    }
}

fn add_aboves<'a>(
    list: &mut Vec<Above<'a>>,
    above: &Above<'a>,
    trees: Branches<'a>,
) -> Result<(), OutOfMemory>
    ensures { OnOk result (list.new.items ≡ list.old.items ++ aboves_in above.now (seen trees.entry)) }
{
    let mut rest = trees;
    while let Some(branch) = rest.first() {
        list.push(above.copied())?;
        add_aboves(list, &under(above, branch.row), branch.kids)?;
        rest = branch.after;
    }
    Ok(())
}

/// What is above each node of a page, in document order, by one pass over it.
pub fn aboves(alloc: Global, tree: &Tree) -> Result<List<Above<'_>>, OutOfMemory>
    ensures { IfOk result (λ list. list ≡ aboves (seen tree.now.trees)) }
{
    let mut list = Vec::new(alloc);
    add_aboves(&mut list, &Above::nothing(), tree.branches())?;
    Ok(List::from_vec(list))
}
