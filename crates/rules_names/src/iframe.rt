ghost use Rattle.snap_tree.specs.Trees.{Document};
ghost use Rattle.snap_tree.specs.declared.row.NodeId.{NodeId};
ghost use Rattle.rule_sights.specs.Targets.{JudgesRows};
ghost use Rattle.rules_names.specs.Iframe.{iframe_has_name, iframe_has_name_info, iframe_has_name_target};

use crate::by_name::{JudgesByName, judge_alone, judge_in_turn};
use crate::named::wants_name;
use acc_tree::included_at;
use rule_core::{Class, LastLong, NodeVerdict, Rule, RuleInfo, RuleNo, Verdict};
use rule_sights::sight_of_html;
use snap_tree::{NodeId, OutOfMemory, Tree};
use std::alloc::Global;

/// ACT rule cae760, Iframe element has non-empty accessible name
/// (<https://www.w3.org/WAI/standards-guidelines/act/rules/cae760/>). Its target is an included
/// HTML `iframe`. It fails where the name is empty. The evidence is the role and the name.
#[derive(Clone, Copy, Debug, PartialEq, Eq)]
pub struct IframeHasName;

impl IframeHasName {
    /// Its number.
    pub const NO: u16 = 13;

    /// What the rule says of itself.
    pub const INFO: RuleInfo = RuleInfo {
        no: RuleNo(Self::NO),
        id: *b"cae760",
        applies: Class::SelfOnly,
        expects: Class::Sub,
        inputs: [0; 4],
    };

    /// The law of its targets: on each page it has a verdict exactly where the node is one. It does nothing: the clause
    /// is what it is for.
    #[tactic(auto, using(crate::proofs::Local::iframes))]
    pub fn law_of_targets()
        ensures { (page : Document) (n : NodeId) → JudgesRows iframe_has_name iframe_has_name_target page n }
    {}
}

impl JudgesByName for IframeHasName {
    ghost says = { iframe_has_name };

    fn judge_by(
        &self,
        alloc: Global,
        last: &mut LastLong,
        tree: &Tree,
        n: NodeId,
    ) -> Result<Option<Verdict>, OutOfMemory> {
        let Some(sight) = sight_of_html(tree, n, "iframe") else {
            return Ok(None);
        };
        if !included_at(&sight.above, sight.row) {
            return Ok(None);
        }
        wants_name(alloc, last, tree, n, &sight)
    }
}

impl Rule for IframeHasName {
    ghost means = { iframe_has_name };

    ghost described = { iframe_has_name_info };

    fn info(&self) -> RuleInfo {
        Self::INFO
    }

    fn judge(&self, alloc: Global, tree: &Tree, n: NodeId) -> Result<Option<Verdict>, OutOfMemory> {
        judge_alone(self, alloc, tree, n)
    }

    fn judge_page(&self, alloc: Global, tree: &Tree) -> Result<Vec<NodeVerdict>, OutOfMemory> {
        judge_in_turn(self, alloc, tree)
    }

    #[tactic(auto, using(crate::proofs::Local::iframe_local))]
    fn law_of_locality(&self) {}
}
