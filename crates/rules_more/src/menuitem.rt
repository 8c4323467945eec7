ghost use Rattle.snap_tree.specs.Trees.{Document};
ghost use Rattle.snap_tree.specs.declared.row.NodeId.{NodeId};
ghost use Rattle.rule_sights.specs.Targets.{JudgesRows};
ghost use Rattle.rules_more.specs.Menuitem.{menuitem_has_name, menuitem_has_name_info, menuitem_has_name_target};

use acc_tree::included_at;
use aria_tables::Role;
use rule_core::{Class, LastLong, NodeVerdict, Rule, RuleInfo, RuleNo, Verdict};
use rule_sights::sight_as;
use rules_names::{JudgesByName, judge_alone, judge_in_turn, wants_name};
use snap_tree::{NodeId, OutOfMemory, Tree};
use std::alloc::Global;

/// ACT rule m6b1q3, Menuitem has non-empty accessible name
/// (<https://www.w3.org/WAI/standards-guidelines/act/rules/m6b1q3/>). Its target is an included node of role menuitem. It
/// fails where the name is empty. The evidence is the role and the name.
#[derive(Clone, Copy, Debug, PartialEq, Eq)]
pub struct MenuitemHasName;

impl MenuitemHasName {
    /// Its number.
    pub const NO: u16 = 35;

    /// What the rule says of itself.
    pub const INFO: RuleInfo = RuleInfo {
        no: RuleNo(Self::NO),
        id: *b"m6b1q3",
        applies: Class::SelfOnly,
        expects: Class::Sub,
        inputs: [0; 4],
    };

    /// The law of its targets: on each page it has a verdict exactly where the node is one. It does nothing: the clause
    /// is what it is for.
    #[tactic(auto, using(crate::proofs::Local::menuitems))]
    pub fn law_of_targets()
        ensures { (page : Document) (n : NodeId) → JudgesRows menuitem_has_name menuitem_has_name_target page n }
    {}
}

impl JudgesByName for MenuitemHasName {
    ghost says = { menuitem_has_name };

    fn judge_by(
        &self,
        alloc: Global,
        last: &mut LastLong,
        tree: &Tree,
        n: NodeId,
    ) -> Result<Option<Verdict>, OutOfMemory> {
        let Some(sight) = sight_as(tree, n, &[Role::Menuitem]) else {
            return Ok(None);
        };
        if !included_at(&sight.above, sight.row) {
            return Ok(None);
        }
        wants_name(alloc, last, tree, n, &sight)
    }
}

impl Rule for MenuitemHasName {
    ghost means = { menuitem_has_name };

    ghost described = { menuitem_has_name_info };

    fn info(&self) -> RuleInfo {
        Self::INFO
    }

    fn judge(&self, alloc: Global, tree: &Tree, n: NodeId) -> Result<Option<Verdict>, OutOfMemory> {
        judge_alone(self, alloc, tree, n)
    }

    fn judge_page(&self, alloc: Global, tree: &Tree) -> Result<Vec<NodeVerdict>, OutOfMemory> {
        judge_in_turn(self, alloc, tree)
    }

    #[tactic(auto, using(crate::proofs::Local::menuitem_local))]
    fn law_of_locality(&self) {}
}
