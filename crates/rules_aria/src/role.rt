ghost use Rattle.std.specs.Prelude.{◌≡◌, IfOk};
ghost use Rattle.acc_tree.specs.Seen.{seen_row};
ghost use Rattle.snap_tree.specs.Trees.{Document};
ghost use Rattle.snap_tree.specs.declared.row.NodeId.{NodeId};
ghost use Rattle.rule_sights.specs.Targets.{JudgesRows};
ghost use Rattle.rules_aria.specs.Role.{names_known, is_outside, names_outside, role_finding, is_role_target, role_verdict, role_is_valid, role_is_valid_info, role_is_valid_target};

use crate::token::begins;
use acc_tree::{Above, Attribute, attr, exposed_at};
use aria_tables::role_of;
use rule_core::{Class, Finding, Reason, Rule, RuleInfo, RuleNo, Verdict};
use rule_sights::sight_with;
use snap_tree::{NodeId, OutOfMemory, Row, Text, Tree, blank, next_word};
use std::alloc::Global;

/// ACT rule 674b10, Role attribute has valid value
/// (<https://www.w3.org/WAI/standards-guidelines/act/rules/674b10/>). Its target is an exposed element
/// whose role attribute isn't blank. It fails where no token is a known role and none is of a module
/// outside WAI-ARIA, whose words begin `doc-` or `graphics-`; with such a token a person has to judge. The
/// evidence is the role attribute.
#[derive(Clone, Copy, Debug, PartialEq, Eq)]
pub struct RoleIsValid;

impl RoleIsValid {
    /// Its number.
    pub const NO: u16 = 18;

    /// What the rule says of itself.
    pub const INFO: RuleInfo = RuleInfo {
        no: RuleNo(Self::NO),
        id: *b"674b10",
        applies: Class::SelfOnly,
        expects: Class::SelfOnly,
        inputs: [0; 4],
    };

    /// The law of its targets: on each page it has a verdict exactly where the node is one. It does nothing: the clause
    /// is what it is for.
    #[tactic(auto, using(crate::proofs::Local::roles))]
    pub fn law_of_targets()
        ensures { (page : Document) (n : NodeId) → JudgesRows role_is_valid role_is_valid_target page n }
    {}
}

fn names_known(text: &str) -> bool
    ensures { result ≡ names_known text.now }
{
    let mut rest = text;
    while let Some((token, later)) = next_word(rest) {
        if role_of(token.as_bytes()).is_some() {
            return true;
        }
        rest = later;
    }
    false
}

fn is_outside(token: &str) -> bool
    ensures { result ≡ is_outside token.now }
{
    begins(token, "doc-") | begins(token, "graphics-")
}

fn names_outside(text: &str) -> bool
    ensures { result ≡ names_outside text.now }
{
    let mut rest = text;
    while let Some((token, later)) = next_word(rest) {
        if is_outside(token) {
            return true;
        }
        rest = later;
    }
    false
}

fn finding(text: &str) -> Finding
    ensures { result ≡ role_finding text.now }
{
    if names_known(text) {
        Finding::met()
    } else if names_outside(text) {
        Finding::cant_tell(Reason::OutsideRole)
    } else {
        Finding::failed(Reason::NoKnownRole)
    }
}

fn is_target(above: &Above, row: &Row, text: &Text) -> bool
    ensures { result ≡ is_role_target above.now (seen_row row.now) text.now }
{
    !blank(text) && exposed_at(above, row)
}

fn verdict(alloc: Global, above: &Above, row: &Row) -> Result<Option<Verdict>, OutOfMemory>
    ensures { IfOk result (λ verdict. verdict ≡ role_verdict above.now (seen_row row.now)) }
{
    match attr(row, Attribute::RoleAttr) {
        Some(text) if is_target(above, row, text) => {
            Ok(Some(finding(text.as_str()).verdict(alloc, text)?))
        }
        _ => Ok(None),
    }
}

impl Rule for RoleIsValid {
    ghost means = { role_is_valid };

    ghost described = { role_is_valid_info };

    fn info(&self) -> RuleInfo {
        Self::INFO
    }

    fn judge(&self, alloc: Global, tree: &Tree, n: NodeId) -> Result<Option<Verdict>, OutOfMemory> {
        match sight_with(tree, n, Attribute::RoleAttr) {
            Some(sight) => verdict(alloc, &sight.above, sight.row),
            None => Ok(None),
        }
    }

    #[tactic(auto, using(crate::proofs::Local::role_local))]
    fn law_of_locality(&self) {}
}
