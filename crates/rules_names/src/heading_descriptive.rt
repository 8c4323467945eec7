ghost use Rattle.std.specs.Prelude.{◌≡◌, IfOk};
ghost use Rattle.acc_tree.specs.Roles.{role_at};
ghost use Rattle.acc_tree.specs.Seen.{seen_row, seen};
ghost use Rattle.acc_name.specs.Names.{name_of};
ghost use Rattle.rule_core.specs.declared.reason.Reason.TheVariants.{JudgeHeading};
ghost use Rattle.snap_tree.specs.Trees.{Document};
ghost use Rattle.snap_tree.specs.declared.row.NodeId.{NodeId};
ghost use Rattle.rule_sights.specs.Targets.{JudgesRows};
ghost use Rattle.rules_names.specs.Named.{asks_a_person};
ghost use Rattle.rules_names.specs.HeadingDescriptive.{heading_is_descriptive, heading_is_descriptive_info, heading_is_descriptive_target};

use crate::by_name::{JudgesByName, judge_alone, judge_in_turn};
use crate::named::asks_a_person;
use acc_name::name;
use acc_tree::{Sight, included_at, role_at};
use aria_tables::Role;
use rule_core::{Class, LastLong, NodeVerdict, Reason, Rule, RuleInfo, RuleNo, Verdict};
use rule_sights::sight_as;
use snap_tree::{NodeId, OutOfMemory, Tree};
use std::alloc::Global;

/// ACT rule b49b2e, Heading is descriptive
/// (<https://www.w3.org/WAI/standards-guidelines/act/rules/b49b2e/>). Its target is an included
/// node of role heading whose name is not empty. A person has to judge it. The evidence is the role and the
/// name.
#[derive(Clone, Copy, Debug, PartialEq, Eq)]
pub struct HeadingIsDescriptive;

impl HeadingIsDescriptive {
    /// Its number.
    pub const NO: u16 = 16;

    /// What the rule says of itself.
    pub const INFO: RuleInfo = RuleInfo {
        no: RuleNo(Self::NO),
        id: *b"b49b2e",
        applies: Class::Sub,
        expects: Class::Sub,
        inputs: [0; 4],
    };

    /// The law of its targets: on each page it has a verdict exactly where the node is one. It does nothing: the clause
    /// is what it is for.
    #[tactic(auto, using(crate::proofs::Local::descriptive))]
    pub fn law_of_targets()
        ensures { (page : Document) (n : NodeId) → JudgesRows heading_is_descriptive (heading_is_descriptive_target (name_of (seen page.trees) n).text) page n }
    {}
}

fn verdict(
    alloc: Global,
    last: &mut LastLong,
    tree: &Tree,
    n: NodeId,
    sight: &Sight<'_>,
) -> Result<Option<Verdict>, OutOfMemory>
    ensures { IfOk result (λ verdict. verdict ≡ asks_a_person JudgeHeading (role_at sight.now.above (seen_row sight.now.row.now)) (name_of (seen tree.now.trees) n).text) }
{
    let name = name(alloc, tree, n)?;
    let role = role_at(&sight.above, sight.row);
    asks_a_person(alloc, last, Reason::JudgeHeading, role, &name.text)
}

impl JudgesByName for HeadingIsDescriptive {
    ghost says = { heading_is_descriptive };

    fn judge_by(
        &self,
        alloc: Global,
        last: &mut LastLong,
        tree: &Tree,
        n: NodeId,
    ) -> Result<Option<Verdict>, OutOfMemory> {
        let Some(sight) = sight_as(tree, n, &[Role::Heading]) else {
            return Ok(None);
        };
        if !included_at(&sight.above, sight.row) {
            return Ok(None);
        }
        verdict(alloc, last, tree, n, &sight)
    }
}

impl Rule for HeadingIsDescriptive {
    ghost means = { heading_is_descriptive };

    ghost described = { heading_is_descriptive_info };

    fn info(&self) -> RuleInfo {
        Self::INFO
    }

    fn judge(&self, alloc: Global, tree: &Tree, n: NodeId) -> Result<Option<Verdict>, OutOfMemory> {
        judge_alone(self, alloc, tree, n)
    }

    fn judge_page(&self, alloc: Global, tree: &Tree) -> Result<Vec<NodeVerdict>, OutOfMemory> {
        judge_in_turn(self, alloc, tree)
    }

    #[tactic(auto, using(crate::proofs::Local::descriptive_local))]
    fn law_of_locality(&self) {}
}
