ghost use Rattle.std.specs.Prelude.{◌≡◌, true, slice_set, IfOk};
ghost use Rattle.reaudit.specs.Marks.{is_marked, AreMarked};

use judge_core::OutRow;
use snap_tree::{NodeId, OutOfMemory};
use std::alloc::Global;

// A page's numbers are mostly below so many times the count of its nodes.
const SPREAD: usize = 2;

// Marks a node, where the table reaches so far.
#[tactic(auto, using(crate::proofs::Marking::set_past))]
fn mark(marks: &mut Vec<bool>, node: NodeId)
    ensures { marks.new.items ≡ slice_set marks.old.items node.0 true }
{
    let slot = node.0 as usize;
    if slot < marks.len() {
        marks[slot] = true;
    }
}

/// Marks of the nodes that have a row among these, on a page of so many nodes: a table with a mark for each number up
/// to some. Fails only for want of memory.
pub(crate) fn marks_of(
    alloc: Global,
    count: usize,
    rows: &[OutRow],
) -> Result<Vec<bool>, OutOfMemory>
    ensures { IfOk result (λ marks. AreMarked marks.items rows.now) }
{
    let mut marks = Vec::new(alloc);
    marks.resize(count.saturating_mul(SPREAD).saturating_add(1), false)?;
    for row in rows {
        mark(&mut marks, row.node);
    }
    Ok(marks)
}

/// Whether a node is marked; one whose number the table doesn't reach counts as marked.
pub(crate) fn is_marked(marks: &[bool], node: NodeId) -> bool
    ensures { result ≡ is_marked marks.now node }
{
    match marks.get(node.0 as usize) {
        Some(mark) => *mark,
        None => true,
    }
}
