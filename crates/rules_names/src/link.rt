ghost use Rattle.std.specs.Prelude.{◌≡◌};
ghost use Rattle.acc_tree.specs.Seen.{seen_row};
ghost use Rattle.snap_tree.specs.Trees.{Document};
ghost use Rattle.snap_tree.specs.declared.row.NodeId.{NodeId};
ghost use Rattle.rule_sights.specs.Targets.{JudgesRows};
ghost use Rattle.rules_names.specs.Link.{is_link_target, link_has_name, link_has_name_info, link_has_name_target};

use crate::by_name::{JudgesByName, judge_alone, judge_in_turn};
use crate::elements::is_html_element;
use crate::named::wants_name;
use acc_tree::{Above, included_at};
use aria_tables::Role;
use rule_core::{Class, LastLong, NodeVerdict, Rule, RuleInfo, RuleNo, Verdict};
use rule_sights::sight_as;
use snap_tree::{NodeId, OutOfMemory, Row, Tree};
use std::alloc::Global;

/// ACT rule c487ae, Link has non-empty accessible name
/// (<https://www.w3.org/WAI/standards-guidelines/act/rules/c487ae/>). Its target is an included
/// HTML element of role link. It fails where the name is empty. The evidence is the role and the name.
#[derive(Clone, Copy, Debug, PartialEq, Eq)]
pub struct LinkHasName;

impl LinkHasName {
    /// Its number.
    pub const NO: u16 = 9;

    /// What the rule says of itself.
    pub const INFO: RuleInfo = RuleInfo {
        no: RuleNo(Self::NO),
        id: *b"c487ae",
        applies: Class::SelfOnly,
        expects: Class::Sub,
        inputs: [0; 4],
    };

    /// The law of its targets: on each page it has a verdict exactly where the node is one. It does nothing: the clause
    /// is what it is for.
    #[tactic(auto, using(crate::proofs::Local::links))]
    pub fn law_of_targets()
        ensures { (page : Document) (n : NodeId) → JudgesRows link_has_name link_has_name_target page n }
    {}
}

fn is_target(above: &Above, row: &Row) -> bool
    ensures { result ≡ is_link_target above.now (seen_row row.now) }
{
    is_html_element(row) && included_at(above, row)
}

impl JudgesByName for LinkHasName {
    ghost says = { link_has_name };

    fn judge_by(
        &self,
        alloc: Global,
        last: &mut LastLong,
        tree: &Tree,
        n: NodeId,
    ) -> Result<Option<Verdict>, OutOfMemory> {
        let Some(sight) = sight_as(tree, n, &[Role::Link]) else {
            return Ok(None);
        };
        if !is_target(&sight.above, sight.row) {
            return Ok(None);
        }
        wants_name(alloc, last, tree, n, &sight)
    }
}

impl Rule for LinkHasName {
    ghost means = { link_has_name };

    ghost described = { link_has_name_info };

    fn info(&self) -> RuleInfo {
        Self::INFO
    }

    fn judge(&self, alloc: Global, tree: &Tree, n: NodeId) -> Result<Option<Verdict>, OutOfMemory> {
        judge_alone(self, alloc, tree, n)
    }

    fn judge_page(&self, alloc: Global, tree: &Tree) -> Result<Vec<NodeVerdict>, OutOfMemory> {
        judge_in_turn(self, alloc, tree)
    }

    #[tactic(auto, using(crate::proofs::Local::link_local))]
    fn law_of_locality(&self) {}
}
