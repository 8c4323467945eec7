ghost use Rattle.std.specs.Prelude.{◌≡◌, IfOk};
ghost use Rattle.snap_tree.specs.Labels.{is_labelable, labels_for};
ghost use Rattle.acc_tree.specs.Seen.{seen_row, seen};

use snap_tree::{List, NodeId, OutOfMemory, Row, Tree};
use std::alloc::Global;

/// Whether the node is one of HTML's labelable elements, as `Row::is_labelable` tells.
#[tactic(auto, using(crate::proofs::Finding::labelable_seen))]
pub fn is_labelable(row: &Row) -> bool
    ensures { result ≡ is_labelable (seen_row row.now) }
{
    row.is_labelable()
}

/// The labels of a node, as `Tree::labels_for` finds them.
#[tactic(auto, using(crate::proofs::Finding::labels_seen))]
pub fn labels_of(alloc: Global, tree: &Tree, n: NodeId) -> Result<List<NodeId>, OutOfMemory>
    ensures { IfOk result (λ labels. labels ≡ labels_for (seen tree.now.trees) n) }
{
    tree.labels_for(alloc, n)
}
