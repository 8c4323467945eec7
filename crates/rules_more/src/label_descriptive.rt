ghost use Rattle.std.specs.Prelude.{◌≡◌, IfOk};
ghost use Rattle.acc_tree.specs.Roles.{role_at};
ghost use Rattle.acc_tree.specs.Seen.{seen_row, seen};
ghost use Rattle.acc_name.specs.Names.{name_of};
ghost use Rattle.snap_tree.specs.Trees.{Document};
ghost use Rattle.snap_tree.specs.declared.row.NodeId.{NodeId};
ghost use Rattle.rule_sights.specs.Targets.{JudgesRows};
ghost use Rattle.rules_more.specs.LabelDescriptive.{is_of_label, label_verdict, label_is_descriptive, label_is_descriptive_info, label_is_descriptive_target};

use acc_name::{NameSource, name};
use acc_tree::{Sight, included_at, role_at};
use rule_core::{Class, LastLong, NodeVerdict, Reason, Rule, RuleInfo, RuleNo, Verdict};
use rule_sights::sight_as;
use rules_names::{FORM_FIELDS, JudgesByName, asks_a_person, judge_alone, judge_in_turn};
use snap_tree::{NodeId, OutOfMemory, Tree};
use std::alloc::Global;

/// ACT rule cc0f0a, Form field label is descriptive
/// (<https://www.w3.org/WAI/standards-guidelines/act/rules/cc0f0a/>). Its target is an included node of one of the roles
/// of form fields whose name is that of a label, of HTML or by aria-labelledby. A person has to judge it. The evidence is
/// the role and the name.
#[derive(Clone, Copy, Debug, PartialEq, Eq)]
pub struct LabelIsDescriptive;

impl LabelIsDescriptive {
    /// Its number.
    pub const NO: u16 = 33;

    /// What the rule says of itself.
    pub const INFO: RuleInfo = RuleInfo {
        no: RuleNo(Self::NO),
        id: *b"cc0f0a",
        applies: Class::Sub,
        expects: Class::Sub,
        inputs: [0; 4],
    };

    /// The law of its targets: on each page it has a verdict exactly where the node is one. It does nothing: the clause
    /// is what it is for.
    #[tactic(auto, using(crate::proofs::Local::labels))]
    pub fn law_of_targets()
        ensures { (page : Document) (n : NodeId) → JudgesRows label_is_descriptive (label_is_descriptive_target (name_of (seen page.trees) n)) page n }
    {}
}

fn is_of_label(source: NameSource) -> bool
    ensures { result ≡ is_of_label source }
{
    matches!(source, NameSource::LabelledBy | NameSource::HostLabel)
}

fn verdict(
    alloc: Global,
    last: &mut LastLong,
    tree: &Tree,
    n: NodeId,
    sight: &Sight<'_>,
) -> Result<Option<Verdict>, OutOfMemory>
    ensures { IfOk result (λ verdict. verdict ≡ label_verdict (name_of (seen tree.now.trees) n).source (role_at sight.now.above (seen_row sight.now.row.now)) (name_of (seen tree.now.trees) n).text) }
{
    let name = name(alloc, tree, n)?;
    if !is_of_label(name.source) {
        return Ok(None);
    }
    let role = role_at(&sight.above, sight.row);
    asks_a_person(alloc, last, Reason::JudgeLabel, role, &name.text)
}

impl JudgesByName for LabelIsDescriptive {
    ghost says = { label_is_descriptive };

    fn judge_by(
        &self,
        alloc: Global,
        last: &mut LastLong,
        tree: &Tree,
        n: NodeId,
    ) -> Result<Option<Verdict>, OutOfMemory> {
        let Some(sight) = sight_as(tree, n, &FORM_FIELDS) else {
            return Ok(None);
        };
        if !included_at(&sight.above, sight.row) {
            return Ok(None);
        }
        verdict(alloc, last, tree, n, &sight)
    }
}

impl Rule for LabelIsDescriptive {
    ghost means = { label_is_descriptive };

    ghost described = { label_is_descriptive_info };

    fn info(&self) -> RuleInfo {
        Self::INFO
    }

    fn judge(&self, alloc: Global, tree: &Tree, n: NodeId) -> Result<Option<Verdict>, OutOfMemory> {
        judge_alone(self, alloc, tree, n)
    }

    fn judge_page(&self, alloc: Global, tree: &Tree) -> Result<Vec<NodeVerdict>, OutOfMemory> {
        judge_in_turn(self, alloc, tree)
    }

    #[tactic(auto, using(crate::proofs::Local::label_local))]
    fn law_of_locality(&self) {}
}
