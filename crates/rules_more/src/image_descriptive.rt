ghost use Rattle.std.specs.Prelude.{◌≡◌, IfOk};
ghost use Rattle.acc_tree.specs.Roles.{role_at};
ghost use Rattle.acc_tree.specs.Seen.{seen_row, seen};
ghost use Rattle.acc_name.specs.Names.{name_of};
ghost use Rattle.rule_core.specs.declared.reason.Reason.TheVariants.{JudgeImage};
ghost use Rattle.snap_tree.specs.Trees.{Document};
ghost use Rattle.snap_tree.specs.declared.row.NodeId.{NodeId};
ghost use Rattle.rule_sights.specs.Targets.{JudgesRows};
ghost use Rattle.rules_names.specs.Image.{is_included_image};
ghost use Rattle.rules_names.specs.Named.{asks_a_person};
ghost use Rattle.rules_more.specs.ImageDescriptive.{image_is_descriptive, image_is_descriptive_info, image_is_descriptive_target};

use acc_name::name;
use acc_tree::{Above, Sight, included_at, role_at};
use aria_tables::Role;
use rule_core::{Class, LastLong, NodeVerdict, Reason, Rule, RuleInfo, RuleNo, Verdict};
use rule_sights::sight_as;
use rules_names::{JudgesByName, asks_a_person, is_html_element, judge_alone, judge_in_turn};
use snap_tree::{NodeId, OutOfMemory, Row, Tree};
use std::alloc::Global;

/// ACT rule qt1vmo, Image accessible name is descriptive
/// (<https://www.w3.org/WAI/standards-guidelines/act/rules/qt1vmo/>). Its target is an included HTML element of role img
/// whose name is not empty. A person has to judge it. The evidence is the role and the name.
#[derive(Clone, Copy, Debug, PartialEq, Eq)]
pub struct ImageIsDescriptive;

impl ImageIsDescriptive {
    /// Its number.
    pub const NO: u16 = 34;

    /// What the rule says of itself.
    pub const INFO: RuleInfo = RuleInfo {
        no: RuleNo(Self::NO),
        id: *b"qt1vmo",
        applies: Class::Sub,
        expects: Class::Sub,
        inputs: [0; 4],
    };

    /// The law of its targets: on each page it has a verdict exactly where the node is one. It does nothing: the clause
    /// is what it is for.
    #[tactic(auto, using(crate::proofs::Local::images))]
    pub fn law_of_targets()
        ensures { (page : Document) (n : NodeId) → JudgesRows image_is_descriptive (image_is_descriptive_target (name_of (seen page.trees) n).text) page n }
    {}
}

fn is_target(above: &Above, row: &Row) -> bool
    ensures { result ≡ is_included_image above.now (seen_row row.now) }
{
    is_html_element(row) && included_at(above, row)
}

fn verdict(
    alloc: Global,
    last: &mut LastLong,
    tree: &Tree,
    n: NodeId,
    sight: &Sight<'_>,
) -> Result<Option<Verdict>, OutOfMemory>
    ensures { IfOk result (λ verdict. verdict ≡ asks_a_person JudgeImage (role_at sight.now.above (seen_row sight.now.row.now)) (name_of (seen tree.now.trees) n).text) }
{
    let name = name(alloc, tree, n)?;
    let role = role_at(&sight.above, sight.row);
    asks_a_person(alloc, last, Reason::JudgeImage, role, &name.text)
}

impl JudgesByName for ImageIsDescriptive {
    ghost says = { image_is_descriptive };

    fn judge_by(
        &self,
        alloc: Global,
        last: &mut LastLong,
        tree: &Tree,
        n: NodeId,
    ) -> Result<Option<Verdict>, OutOfMemory> {
        let Some(sight) = sight_as(tree, n, &[Role::Img]) else {
            return Ok(None);
        };
        if !is_target(&sight.above, sight.row) {
            return Ok(None);
        }
        verdict(alloc, last, tree, n, &sight)
    }
}

impl Rule for ImageIsDescriptive {
    ghost means = { image_is_descriptive };

    ghost described = { image_is_descriptive_info };

    fn info(&self) -> RuleInfo {
        Self::INFO
    }

    fn judge(&self, alloc: Global, tree: &Tree, n: NodeId) -> Result<Option<Verdict>, OutOfMemory> {
        judge_alone(self, alloc, tree, n)
    }

    fn judge_page(&self, alloc: Global, tree: &Tree) -> Result<Vec<NodeVerdict>, OutOfMemory> {
        judge_in_turn(self, alloc, tree)
    }

    #[tactic(auto, using(crate::proofs::Local::image_local))]
    fn law_of_locality(&self) {}
}
