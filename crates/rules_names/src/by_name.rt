ghost use Rattle.std.specs.Prelude.{◌≡◌, Option, IfOk};
ghost use Rattle.snap_tree.specs.declared.row.NodeId.{NodeId};
ghost use Rattle.snap_tree.specs.Trees.{Document};
ghost use Rattle.rule_core.specs.declared.verdict.Verdict.{Verdict};
ghost use Rattle.rule_core.specs.Pages.{page_verdicts};

use rule_core::{LastLong, NodeVerdict, Verdict, push_verdict};
use snap_tree::{NodeId, OutOfMemory, Tree};
use std::alloc::Global;

/// A rule on names: what it says of each node of a page. Both calls of `Rule` judge by it, in [`judge_alone`] and
/// [`judge_in_turn`].
pub trait JudgesByName {
    ghost says: { Document → NodeId → Option Verdict };

    /// The verdict on a node. A name that is too long for evidence isn't digested anew where it is equal to
    /// the last such name. Fails only for want of memory.
    fn judge_by(
        &self,
        alloc: Global,
        last: &mut LastLong,
        tree: &Tree,
        n: NodeId,
    ) -> Result<Option<Verdict>, OutOfMemory>
        ensures { IfOk result (λ verdict. verdict ≡ says tree.now n) };
}

/// The verdict on a node by itself. Fails only for want of memory.
pub fn judge_alone<R: JudgesByName>(
    rule: &R,
    alloc: Global,
    tree: &Tree,
    n: NodeId,
) -> Result<Option<Verdict>, OutOfMemory>
    ensures { IfOk result (λ verdict. verdict ≡ R.says tree.now n) }
{
    rule.judge_by(alloc, &mut LastLong::new(), tree, n)
}

/// The verdicts on a page, in document order. Elements that stand in one another often have one name, which
/// is then digested once. Fails only for want of memory.
pub fn judge_in_turn<R: JudgesByName>(
    rule: &R,
    alloc: Global,
    tree: &Tree,
) -> Result<Vec<NodeVerdict>, OutOfMemory>
    ensures { IfOk result (λ verdicts. verdicts.items ≡ page_verdicts R.says tree.now) }
{
    let mut last = LastLong::new();
    let mut verdicts = Vec::new(alloc);
    for row in tree.rows() {
        let verdict = rule.judge_by(alloc, &mut last, tree, row.id)?;
        push_verdict(&mut verdicts, row.id, verdict)?;
    }
    Ok(verdicts)
}
