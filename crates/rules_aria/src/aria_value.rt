ghost use Rattle.std.specs.Prelude.{◌≡◌, IfOk, option_map};
ghost use Rattle.std.specs.List.{list_any};
ghost use Rattle.acc_tree.specs.References.{found};
ghost use Rattle.acc_tree.specs.Seen.{seen_row, seen, aria_attrs};
ghost use Rattle.acc_tree.specs.Sights.{seen_sight};
ghost use Rattle.snap_tree.specs.Trees.{Document};
ghost use Rattle.snap_tree.specs.declared.row.NodeId.{NodeId};
ghost use Rattle.rule_sights.specs.Targets.{JudgesRows};
ghost use Rattle.rules_aria.specs.AriaValue.{filled_attr, is_bad, is_dead, has_filled, value_finding, value_verdict, aria_value_is_valid, aria_value_is_valid_info, aria_value_is_valid_target};
ghost use Rattle.rule_sights.specs.Nodes.{sight_where};

use crate::attribute_lines::aria_lines;
use acc_tree::{Above, Sight, aria_attrs, exposed_at, first_found, sight_of};
use aria_tables::{AriaAttr, attr_of, is_reference, value_ok};
use rule_core::{Class, Finding, Reason, Rule, RuleInfo, RuleNo, Verdict};
use snap_tree::{Attr, NodeId, OutOfMemory, Row, Tree, blank};
use std::alloc::Global;

/// ACT rule 6a7281, ARIA state or property has valid value
/// (<https://www.w3.org/WAI/standards-guidelines/act/rules/6a7281/>). Its target is an exposed element
/// with a known ARIA attribute that isn't blank. It fails where the value of such an attribute isn't of
/// its kind, and where one refers to elements and none of its tokens is the id of an element. The evidence
/// is the lines of all its ARIA attributes.
#[derive(Clone, Copy, Debug, PartialEq, Eq)]
pub struct AriaValueIsValid;

impl AriaValueIsValid {
    /// Its number.
    pub const NO: u16 = 20;

    /// What the rule says of itself.
    pub const INFO: RuleInfo = RuleInfo {
        no: RuleNo(Self::NO),
        id: *b"6a7281",
        applies: Class::SelfOnly,
        expects: Class::Sub,
        inputs: [0; 4],
    };

    /// The law of its targets: on each page it has a verdict exactly where the node is one. It does nothing: the clause
    /// is what it is for.
    #[tactic(auto, using(crate::proofs::Local::values))]
    pub fn law_of_targets()
        ensures { (page : Document) (n : NodeId) → JudgesRows aria_value_is_valid aria_value_is_valid_target page n }
    {}
}

/// The known ARIA attribute that an attribute is, where its value isn't blank; None otherwise.
pub fn filled_attr(attr: &Attr) -> Option<AriaAttr>
    ensures { result ≡ filled_attr attr.now }
{
    if blank(&attr.value) {
        None
    } else {
        attr_of(attr.name.as_str().as_bytes())
    }
}

fn has_filled(row: &Row) -> bool
    ensures { result ≡ has_filled (seen_row row.now) }
{
    aria_attrs(row).any(|attr| filled_attr(attr).is_some())
}

fn is_bad(attr: &Attr) -> bool
    ensures { result ≡ is_bad attr.now }
{
    match filled_attr(attr) {
        Some(known) => !value_ok(known, attr.value.as_str().as_bytes()),
        None => false,
    }
}

fn is_dead(tree: &Tree, attr: &Attr) -> bool
    ensures { result ≡ is_dead (found (seen tree.now.trees)) attr.now }
{
    match filled_attr(attr) {
        Some(known) => is_reference(known) && first_found(tree, attr.value.as_str()).is_none(),
        None => false,
    }
}

fn has_bad(row: &Row) -> bool
    ensures { result ≡ list_any is_bad (aria_attrs (seen_row row.now)) }
{
    aria_attrs(row).any(|attr| is_bad(attr))
}

fn has_dead(tree: &Tree, row: &Row) -> bool
    ensures { result ≡ list_any (is_dead (found (seen tree.now.trees))) (aria_attrs (seen_row row.now)) }
{
    aria_attrs(row).any(|attr| is_dead(tree, attr))
}

fn finding(tree: &Tree, row: &Row) -> Finding
    ensures { result ≡ value_finding (found (seen tree.now.trees)) (aria_attrs (seen_row row.now)) }
{
    if has_bad(row) {
        Finding::failed(Reason::BadValue)
    } else if has_dead(tree, row) {
        Finding::failed(Reason::DeadReference)
    } else {
        Finding::met()
    }
}

fn verdict(
    alloc: Global,
    tree: &Tree,
    above: &Above,
    row: &Row,
) -> Result<Option<Verdict>, OutOfMemory>
    ensures { IfOk result (λ verdict. verdict ≡ value_verdict (found (seen tree.now.trees)) above.now (seen_row row.now)) }
{
    if !exposed_at(above, row) {
        return Ok(None);
    }
    let lines = aria_lines(alloc, row)?;
    Ok(Some(finding(tree, row).verdict(alloc, &lines)?))
}

// The sight of a node with a known attribute that isn't blank. Where it has none, nothing else of the
// page is looked at.
#[tactic(auto, using(rule_sights::proofs::RowFirst::no_node, rule_sights::proofs::RowFirst::has_not, rule_sights::proofs::RowFirst::has_it))]
fn filled_sight(tree: &Tree, n: NodeId) -> Option<Sight<'_>>
    ensures { option_map seen_sight result ≡ sight_where has_filled (seen tree.now.trees) n }
{
    match tree.node(n) {
        Some(row) if has_filled(row) => sight_of(tree, n),
        _ => None,
    }
}

impl Rule for AriaValueIsValid {
    ghost means = { aria_value_is_valid };

    ghost described = { aria_value_is_valid_info };

    fn info(&self) -> RuleInfo {
        Self::INFO
    }

    fn judge(&self, alloc: Global, tree: &Tree, n: NodeId) -> Result<Option<Verdict>, OutOfMemory> {
        match filled_sight(tree, n) {
            Some(sight) => verdict(alloc, tree, &sight.above, sight.row),
            None => Ok(None),
        }
    }

    #[tactic(auto, using(crate::proofs::Local::value_local))]
    fn law_of_locality(&self) {}
}
