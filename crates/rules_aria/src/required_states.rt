ghost use Rattle.std.specs.Prelude.{◌≡◌, IfOk};
ghost use Rattle.acc_tree.specs.Seen.{seen_row};
ghost use Rattle.acc_tree.specs.Tags.{html_tag};
ghost use Rattle.snap_tree.specs.Trees.{Document};
ghost use Rattle.snap_tree.specs.declared.row.NodeId.{NodeId};
ghost use Rattle.rule_sights.specs.Targets.{JudgesRows};
ghost use Rattle.rules_aria.specs.RequiredStates.{is_checked_by_type, is_check_input, is_exempt, lacks_one, states_finding, is_states_target, states_verdict, has_required_states, has_required_states_info, has_required_states_target};

use crate::attribute_lines::aria_lines;
use acc_tree::{
    Above, Attribute, InputType, Tag, explicit_at, html_tag, implicit_at, included_at, input_type,
    is_blank_at,
};
use aria_tables::{AriaAttr, Role, required_states, same_role};
use rule_core::{Class, Finding, Reason, Rule, RuleInfo, RuleNo, Verdict};
use rule_sights::sight_with;
use snap_tree::{NodeId, OutOfMemory, Row, Tree};
use std::alloc::Global;

/// ACT rule 4e8ab6, Element with role attribute has required states and properties
/// (<https://www.w3.org/WAI/standards-guidelines/act/rules/4e8ab6/>). Its target is an included element
/// whose explicit role requires states or properties, but for one whose implicit role is the same, and
/// for an HTML input of type checkbox or radio: there the browser tells them. It fails where one of
/// those that are required is blank. The evidence is the lines of its ARIA attributes.
#[derive(Clone, Copy, Debug, PartialEq, Eq)]
pub struct HasRequiredStates;

impl HasRequiredStates {
    /// Its number.
    pub const NO: u16 = 21;

    /// What the rule says of itself.
    pub const INFO: RuleInfo = RuleInfo {
        no: RuleNo(Self::NO),
        id: *b"4e8ab6",
        applies: Class::SelfOnly,
        expects: Class::SelfOnly,
        inputs: [0; 4],
    };

    /// The law of its targets: on each page it has a verdict exactly where the node is one. It does nothing: the clause
    /// is what it is for.
    #[tactic(auto, using(crate::proofs::Local::states))]
    pub fn law_of_targets()
        ensures { (page : Document) (n : NodeId) → JudgesRows has_required_states has_required_states_target page n }
    {}
}

fn is_checked_by_type(kind: InputType) -> bool
    ensures { result ≡ is_checked_by_type kind }
{
    matches!(kind, InputType::Checkbox | InputType::Radio)
}

fn is_check_input(row: &Row) -> bool
    ensures { result ≡ is_check_input (seen_row row.now) (html_tag (seen_row row.now)) }
{
    match html_tag(row) {
        Some(Tag::Input) => is_checked_by_type(input_type(row)),
        _ => false,
    }
}

fn is_exempt(above: &Above, row: &Row, role: Role) -> bool
    ensures { result ≡ is_exempt above.now (seen_row row.now) role }
{
    let is_own = match implicit_at(above, row) {
        Some(own) => same_role(role, own),
        None => false,
    };
    is_own | is_check_input(row)
}

fn lacks_one(row: &Row, states: &[AriaAttr]) -> bool
    ensures { result ≡ lacks_one (seen_row row.now) states.now }
{
    states
        .iter()
        .any(|state| is_blank_at(row, Attribute::Aria(*state)))
}

fn finding(row: &Row, role: Role) -> Finding
    ensures { result ≡ states_finding (seen_row row.now) role }
{
    if lacks_one(row, required_states(role)) {
        Finding::failed(Reason::MissingState)
    } else {
        Finding::met()
    }
}

fn is_target(above: &Above, row: &Row, role: Role) -> bool
    ensures { result ≡ is_states_target above.now (seen_row row.now) role }
{
    !required_states(role).is_empty() && !is_exempt(above, row, role) && included_at(above, row)
}

fn verdict(alloc: Global, above: &Above, row: &Row) -> Result<Option<Verdict>, OutOfMemory>
    ensures { IfOk result (λ verdict. verdict ≡ states_verdict above.now (seen_row row.now)) }
{
    match explicit_at(row) {
        Some(role) if is_target(above, row, role) => {
            let lines = aria_lines(alloc, row)?;
            Ok(Some(finding(row, role).verdict(alloc, &lines)?))
        }
        _ => Ok(None),
    }
}

impl Rule for HasRequiredStates {
    ghost means = { has_required_states };

    ghost described = { has_required_states_info };

    fn info(&self) -> RuleInfo {
        Self::INFO
    }

    fn judge(&self, alloc: Global, tree: &Tree, n: NodeId) -> Result<Option<Verdict>, OutOfMemory> {
        match sight_with(tree, n, Attribute::RoleAttr) {
            Some(sight) => verdict(alloc, &sight.above, sight.row),
            None => Ok(None),
        }
    }

    #[tactic(auto, using(crate::proofs::Local::states_local))]
    fn law_of_locality(&self) {}
}
