ghost use Rattle.std.specs.Prelude.{◌≡◌, ℕ, ◌+◌, ◌<◌, ◌≤◌, ◌^◌, length, None, IfOk, OnOk, IsTrue, false, slice_get};
ghost use Rattle.counts.specs.Counts.{next, raised};
ghost use Rattle.snap_tree.specs.declared.row.NodeId.{NodeId};
ghost use Rattle.snap_tree.specs.Trees.{Document};
ghost use Rattle.rule_core.specs.declared.info.RuleNo.{RuleNo};
ghost use Rattle.rule_core.specs.Books.{Book};
ghost use Rattle.rule_core.specs.Infos.{is_orderly, has_atomic};
ghost use Rattle.rule_core.specs.Local.{IsLocalBook};
ghost use Rattle.rule_core.specs.Pages.{page_verdicts, node_count};

use crate::info::{RuleInfo, RuleNo};
use crate::verdict::{NodeVerdict, Verdict, push_verdict};
use snap_tree::{NodeId, OutOfMemory, Tree};
use std::alloc::Global;

/// A list of rules that counts its judgings. What its rules say, and their infos, belong to the
/// type and not to the value, so that all books of one type agree.
pub trait RuleBook {
    ghost book: { Book };

    ghost calls: { Self → ℕ };

    /// What the rule at this place says of itself, in the order of the numbers, from place 0; `None`
    /// past the last. Composite rules have places too.
    fn info(&self, place: usize) -> Option<RuleInfo>
        ensures { result ≡ slice_get book.infos place };

    /// The verdict of an atomic rule on a node: `None` exactly where the number isn't that of an
    /// atomic rule of the book, or the node isn't a target of the rule. The count of judgings
    /// rises by one, whatever comes, want of memory too.
    fn judge(
        &mut self,
        alloc: Global,
        tree: &Tree,
        rule: RuleNo,
        n: NodeId,
    ) -> Result<Option<Verdict>, OutOfMemory>
        ensures verdict { IfOk result (λ verdict. verdict ≡ book.means rule tree.now n) }
        ensures counted { calls self.new ≡ next (calls self.old) };

    /// The verdicts of an atomic rule on a page, in document order: of each node that is a target of the
    /// rule; none where the number isn't that of an atomic rule of the book. The count of judgings rises
    /// by the number of the nodes. Fails only for want of memory, and by then it rose by at most that.
    ///
    /// A rule that compares the nodes of a page with one another may answer it in less time than one
    /// node after another.
    fn judge_page(
        &mut self,
        alloc: Global,
        tree: &Tree,
        rule: RuleNo,
    ) -> Result<Vec<NodeVerdict>, OutOfMemory>
        ensures verdicts { IfOk result (λ verdicts. verdicts.items ≡ page_verdicts (book.means rule) tree.now) }
        ensures counted { OnOk result (calls self.new ≡ raised (calls self.old) (node_count tree.now)) }
        ensures bounded { calls self.new ≤ calls self.old + node_count tree.now }
    {
        // Before the first judging too, the count is a u64.
        let _count = self.calls();
        let mut verdicts = Vec::new(alloc);
        for row in tree.rows() {
            let verdict = self.judge(alloc, tree, rule, row.id)?;
            push_verdict(&mut verdicts, row.id, verdict)?;
        }
        Ok(verdicts)
    }

    /// The number of judgings so far; at the greatest `u64` it stays.
    fn calls(&self) -> u64
        ensures { result ≡ calls self.now };

    // The infos are orderly, so that a rule is found by its number or its id.
    ghost orderly: { IsTrue (is_orderly book.infos) };

    // A loop over the places ends.
    ghost few: { length book.infos < 2 ^ 16 };

    // The book says nothing by a number that is no atomic rule of it.
    ghost strange: { (rule : RuleNo) → has_atomic book.infos rule.0 ≡ false → (page : Document) (n : NodeId) → book.means rule page n ≡ None };

    // Each rule of the book says the same of a node on two versions of a page that agree on all that its classes
    // look at, so code over any book may keep a verdict from one version of a page to the next.
    ghost local: { IsLocalBook book };
}
