ghost use Rattle.std.specs.Prelude.{◌≡◌, IfOk};
ghost use Rattle.acc_tree.specs.Roles.{role_at};
ghost use Rattle.acc_tree.specs.Seen.{seen_row, seen};
ghost use Rattle.acc_name.specs.Names.{name_of};
ghost use Rattle.snap_tree.specs.Trees.{Document};
ghost use Rattle.snap_tree.specs.declared.row.NodeId.{NodeId};
ghost use Rattle.rule_sights.specs.Targets.{JudgesRows};
ghost use Rattle.rules_names.specs.Image.{is_included_image, is_decorative_image, is_image_target, image_finding, image_verdict, image_has_name, image_has_name_info, image_has_name_target};

use crate::by_name::{JudgesByName, judge_alone, judge_in_turn};
use crate::elements::{is_html_element, is_img};
use crate::named::{name_finding, named_verdict};
use acc_name::name;
use acc_tree::{Above, Sight, decorative_at, exposed_at, included_at, role_at};
use aria_tables::Role;
use rule_core::{Class, Finding, LastLong, NodeVerdict, Reason, Rule, RuleInfo, RuleNo, Verdict};
use rule_sights::sight_as;
use snap_tree::{NodeId, OutOfMemory, Row, Text, Tree};
use std::alloc::Global;

/// ACT rule 23a2a8, Image has non-empty accessible name
/// (<https://www.w3.org/WAI/standards-guidelines/act/rules/23a2a8/>). Its target is an included
/// HTML element of role img, or an exposed HTML `img` of role none or presentation, which is decorative and
/// passes. It fails where an image that is none such has an empty name. The evidence is the role and the
/// name.
#[derive(Clone, Copy, Debug, PartialEq, Eq)]
pub struct ImageHasName;

impl ImageHasName {
    /// Its number.
    pub const NO: u16 = 10;

    /// What the rule says of itself.
    pub const INFO: RuleInfo = RuleInfo {
        no: RuleNo(Self::NO),
        id: *b"23a2a8",
        applies: Class::SelfOnly,
        expects: Class::Sub,
        inputs: [0; 4],
    };

    /// The law of its targets: on each page it has a verdict exactly where the node is one. It does nothing: the clause
    /// is what it is for.
    #[tactic(auto, using(crate::proofs::Local::images))]
    pub fn law_of_targets()
        ensures { (page : Document) (n : NodeId) → JudgesRows image_has_name image_has_name_target page n }
    {}
}

fn is_included_image(above: &Above, row: &Row) -> bool
    ensures { result ≡ is_included_image above.now (seen_row row.now) }
{
    is_html_element(row) && included_at(above, row)
}

fn is_decorative_image(above: &Above, row: &Row) -> bool
    ensures { result ≡ is_decorative_image above.now (seen_row row.now) }
{
    is_img(row) && exposed_at(above, row) && decorative_at(above, row)
}

fn is_target(above: &Above, row: &Row) -> bool
    ensures { result ≡ is_image_target above.now (seen_row row.now) }
{
    is_included_image(above, row) || is_decorative_image(above, row)
}

fn finding(role: Option<Role>, name: &Text) -> Finding
    ensures { result ≡ image_finding role name.now }
{
    match role {
        Some(Role::NoneRole | Role::Presentation) => Finding::passed(Reason::Decorative),
        _ => name_finding(name),
    }
}

fn verdict(
    alloc: Global,
    last: &mut LastLong,
    tree: &Tree,
    n: NodeId,
    sight: &Sight<'_>,
) -> Result<Option<Verdict>, OutOfMemory>
    ensures { IfOk result (λ verdict. verdict ≡ image_verdict (role_at sight.now.above (seen_row sight.now.row.now)) (name_of (seen tree.now.trees) n).text) }
{
    let role = role_at(&sight.above, sight.row);
    let name = name(alloc, tree, n)?;
    Ok(Some(named_verdict(alloc, last, finding(role, &name.text), role, &name.text)?))
}

impl JudgesByName for ImageHasName {
    ghost says = { image_has_name };

    fn judge_by(
        &self,
        alloc: Global,
        last: &mut LastLong,
        tree: &Tree,
        n: NodeId,
    ) -> Result<Option<Verdict>, OutOfMemory> {
        let Some(sight) = sight_as(tree, n, &[Role::Img, Role::NoneRole, Role::Presentation]) else {
            return Ok(None);
        };
        if !is_target(&sight.above, sight.row) {
            return Ok(None);
        }
        verdict(alloc, last, tree, n, &sight)
    }
}

impl Rule for ImageHasName {
    ghost means = { image_has_name };

    ghost described = { image_has_name_info };

    fn info(&self) -> RuleInfo {
        Self::INFO
    }

    fn judge(&self, alloc: Global, tree: &Tree, n: NodeId) -> Result<Option<Verdict>, OutOfMemory> {
        judge_alone(self, alloc, tree, n)
    }

    fn judge_page(&self, alloc: Global, tree: &Tree) -> Result<Vec<NodeVerdict>, OutOfMemory> {
        judge_in_turn(self, alloc, tree)
    }

    #[tactic(auto, using(crate::proofs::Local::image_local))]
    fn law_of_locality(&self) {}
}
