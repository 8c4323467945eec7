ghost use Rattle.std.specs.Prelude.{◌≡◌, IfOk, option_map};
ghost use Rattle.std.specs.List.{list_any};
ghost use Rattle.acc_tree.specs.Seen.{seen_row, seen, aria_attrs};
ghost use Rattle.acc_tree.specs.Sights.{seen_sight};
ghost use Rattle.rule_sights.specs.Nodes.{sight_where};
ghost use Rattle.snap_tree.specs.Trees.{Document};
ghost use Rattle.snap_tree.specs.declared.row.NodeId.{NodeId};
ghost use Rattle.rule_sights.specs.Targets.{JudgesRows};
ghost use Rattle.rules_more.specs.PermittedState.{is_limited, is_limited_attr, has_limited, is_barred, permitted_finding, permitted_verdict, state_is_permitted, state_is_permitted_info, state_is_permitted_target};

use crate::role_attributes::permitted_roles;
use acc_tree::{Above, Sight, aria_attrs, included_at, role_at, sight_of};
use aria_tables::{AriaAttr, Role};
use rule_core::{Class, Finding, Reason, Rule, RuleInfo, RuleNo, Verdict};
use rules_aria::{aria_lines, filled_attr};
use snap_tree::{Attr, NodeId, OutOfMemory, Row, Tree};
use std::alloc::Global;

/// ACT rule 5c01ea, ARIA state or property is permitted
/// (<https://www.w3.org/WAI/standards-guidelines/act/rules/5c01ea/>). Its target is an included element with a state or
/// property that only some roles permit and that isn't blank. It fails where the role doesn't permit one of those; where
/// there is no role, a person has to judge. The evidence is the lines of all its ARIA attributes.
#[derive(Clone, Copy, Debug, PartialEq, Eq)]
pub struct StateIsPermitted;

impl StateIsPermitted {
    /// Its number.
    pub const NO: u16 = 36;

    /// What the rule says of itself.
    pub const INFO: RuleInfo = RuleInfo {
        no: RuleNo(Self::NO),
        id: *b"5c01ea",
        applies: Class::SelfOnly,
        expects: Class::SelfOnly,
        inputs: [0; 4],
    };

    /// The law of its targets: on each page it has a verdict exactly where the node is one. It does nothing: the clause
    /// is what it is for.
    #[tactic(auto, using(crate::proofs::Local::states))]
    pub fn law_of_targets()
        ensures { (page : Document) (n : NodeId) → JudgesRows state_is_permitted state_is_permitted_target page n }
    {}
}

fn is_limited(known: AriaAttr) -> bool
    ensures { result ≡ is_limited known }
{
    !permitted_roles(known).is_empty()
}

fn is_limited_attr(attr: &Attr) -> bool
    ensures { result ≡ is_limited_attr attr.now }
{
    match filled_attr(attr) {
        Some(known) => is_limited(known),
        None => false,
    }
}

fn has_limited(row: &Row) -> bool
    ensures { result ≡ has_limited (seen_row row.now) }
{
    aria_attrs(row).any(|attr| is_limited_attr(attr))
}

fn is_barred(role: Role, attr: &Attr) -> bool
    ensures { result ≡ is_barred role attr.now }
{
    match filled_attr(attr) {
        Some(known) => is_limited(known) && !role.is_one_of(permitted_roles(known)),
        None => false,
    }
}

fn has_barred(role: Role, row: &Row) -> bool
    ensures { result ≡ list_any (is_barred role) (aria_attrs (seen_row row.now)) }
{
    aria_attrs(row).any(|attr| is_barred(role, attr))
}

fn finding(role: Option<Role>, row: &Row) -> Finding
    ensures { result ≡ permitted_finding role (aria_attrs (seen_row row.now)) }
{
    match role {
        Some(role) if has_barred(role, row) => Finding::failed(Reason::NotPermitted),
        Some(_) => Finding::met(),
        None => Finding::cant_tell(Reason::NoRole),
    }
}

fn verdict(alloc: Global, above: &Above, row: &Row) -> Result<Option<Verdict>, OutOfMemory>
    ensures { IfOk result (λ verdict. verdict ≡ permitted_verdict above.now (seen_row row.now)) }
{
    if !included_at(above, row) {
        return Ok(None);
    }
    let lines = aria_lines(alloc, row)?;
    Ok(Some(finding(role_at(above, row), row).verdict(alloc, &lines)?))
}

// The sight of a node with such a state or property that isn't blank. Where it has none, nothing else of the page is
// looked at.
#[tactic(auto, using(rule_sights::proofs::RowFirst::no_node, rule_sights::proofs::RowFirst::has_not, rule_sights::proofs::RowFirst::has_it))]
fn limited_sight(tree: &Tree, n: NodeId) -> Option<Sight<'_>>
    ensures { option_map seen_sight result ≡ sight_where has_limited (seen tree.now.trees) n }
{
    match tree.node(n) {
        Some(row) if has_limited(row) => sight_of(tree, n),
        _ => None,
    }
}

impl Rule for StateIsPermitted {
    ghost means = { state_is_permitted };

    ghost described = { state_is_permitted_info };

    fn info(&self) -> RuleInfo {
        Self::INFO
    }

    fn judge(&self, alloc: Global, tree: &Tree, n: NodeId) -> Result<Option<Verdict>, OutOfMemory> {
        match limited_sight(tree, n) {
            Some(sight) => verdict(alloc, &sight.above, sight.row),
            None => Ok(None),
        }
    }

    #[tactic(auto, using(crate::proofs::Local::permitted_local))]
    fn law_of_locality(&self) {}
}
