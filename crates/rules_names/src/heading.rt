ghost use Rattle.snap_tree.specs.Trees.{Document};
ghost use Rattle.snap_tree.specs.declared.row.NodeId.{NodeId};
ghost use Rattle.rule_sights.specs.Targets.{JudgesRows};
ghost use Rattle.rules_names.specs.Heading.{heading_has_name, heading_has_name_info, heading_has_name_target};

use crate::by_name::{JudgesByName, judge_alone, judge_in_turn};
use crate::named::wants_name;
use acc_tree::included_at;
use aria_tables::Role;
use rule_core::{Class, LastLong, NodeVerdict, Rule, RuleInfo, RuleNo, Verdict};
use rule_sights::sight_as;
use snap_tree::{NodeId, OutOfMemory, Tree};
use std::alloc::Global;

/// ACT rule ffd0e9, Heading has non-empty accessible name
/// (<https://www.w3.org/WAI/standards-guidelines/act/rules/ffd0e9/>). Its target is an included
/// node of role heading. It fails where the name is empty. The evidence is the role and the name.
#[derive(Clone, Copy, Debug, PartialEq, Eq)]
pub struct HeadingHasName;

impl HeadingHasName {
    /// Its number.
    pub const NO: u16 = 14;

    /// What the rule says of itself.
    pub const INFO: RuleInfo = RuleInfo {
        no: RuleNo(Self::NO),
        id: *b"ffd0e9",
        applies: Class::SelfOnly,
        expects: Class::Sub,
        inputs: [0; 4],
    };

    /// The law of its targets: on each page it has a verdict exactly where the node is one. It does nothing: the clause
    /// is what it is for.
    #[tactic(auto, using(crate::proofs::Local::headings))]
    pub fn law_of_targets()
        ensures { (page : Document) (n : NodeId) → JudgesRows heading_has_name heading_has_name_target page n }
    {}
}

impl JudgesByName for HeadingHasName {
    ghost says = { heading_has_name };

    fn judge_by(
        &self,
        alloc: Global,
        last: &mut LastLong,
        tree: &Tree,
        n: NodeId,
    ) -> Result<Option<Verdict>, OutOfMemory> {
        let Some(sight) = sight_as(tree, n, &[Role::Heading]) else {
            return Ok(None);
        };
        if !included_at(&sight.above, sight.row) {
            return Ok(None);
        }
        wants_name(alloc, last, tree, n, &sight)
    }
}

impl Rule for HeadingHasName {
    ghost means = { heading_has_name };

    ghost described = { heading_has_name_info };

    fn info(&self) -> RuleInfo {
        Self::INFO
    }

    fn judge(&self, alloc: Global, tree: &Tree, n: NodeId) -> Result<Option<Verdict>, OutOfMemory> {
        judge_alone(self, alloc, tree, n)
    }

    fn judge_page(&self, alloc: Global, tree: &Tree) -> Result<Vec<NodeVerdict>, OutOfMemory> {
        judge_in_turn(self, alloc, tree)
    }

    #[tactic(auto, using(crate::proofs::Local::heading_local))]
    fn law_of_locality(&self) {}
}
