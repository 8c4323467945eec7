ghost use Rattle.std.specs.Prelude.{◌≡◌, Option, IfOk};
ghost use Rattle.snap_tree.specs.declared.row.NodeId.{NodeId};
ghost use Rattle.snap_tree.specs.Trees.{Document};
ghost use Rattle.rule_core.specs.declared.info.RuleInfo.{RuleInfo};
ghost use Rattle.rule_core.specs.declared.verdict.Verdict.{Verdict};
ghost use Rattle.rule_core.specs.Local.{IsLocal};
ghost use Rattle.rule_core.specs.Pages.{page_verdicts};

use crate::info::RuleInfo;
use crate::verdict::{NodeVerdict, Verdict, push_verdict};
use snap_tree::{NodeId, OutOfMemory, Tree};
use std::alloc::Global;

/// An atomic rule: what it says of each node of a page, which belongs to its type.
pub trait Rule {
    ghost means: { Document → NodeId → Option Verdict };

    ghost described: { RuleInfo };

    /// What the rule says of itself.
    fn info(&self) -> RuleInfo
        ensures { result ≡ described };

    /// The verdict on a node, which is the type's meaning: None where the node isn't a target. Fails only
    /// for want of memory.
    fn judge(&self, alloc: Global, tree: &Tree, n: NodeId) -> Result<Option<Verdict>, OutOfMemory>
        ensures { IfOk result (λ verdict. verdict ≡ means tree.now n) };

    /// The verdicts on a page, in document order: of each node that is a target. Fails only for want of
    /// memory.
    ///
    /// A rule that compares the nodes of a page with one another may answer it in less time than one
    /// node after another.
    fn judge_page(&self, alloc: Global, tree: &Tree) -> Result<Vec<NodeVerdict>, OutOfMemory>
        ensures { IfOk result (λ verdicts. verdicts.items ≡ page_verdicts means tree.now) }
    {
        let mut verdicts = Vec::new(alloc);
        for row in tree.rows() {
            let verdict = self.judge(alloc, tree, row.id)?;
            push_verdict(&mut verdicts, row.id, verdict)?;
        }
        Ok(verdicts)
    }

    /// The law of locality. It does nothing: the clause is what it is for.
    ///
    /// On two versions of a page that agree on all that the rule looks at, by the two classes of its info, it says
    /// the same of the node, with the same evidence.
    fn law_of_locality(&self)
        ensures { IsLocal described means };
}
