ghost use Rattle.std.specs.Prelude.{◌≡◌, [], IfOk};
ghost use Rattle.std.specs.List.{list_any};
ghost use Rattle.aria_tables.specs.Attributes.{is_later};
ghost use Rattle.acc_tree.specs.Seen.{seen_row, aria_attrs};
ghost use Rattle.snap_tree.specs.Trees.{Document};
ghost use Rattle.snap_tree.specs.declared.row.NodeId.{NodeId};
ghost use Rattle.rule_sights.specs.Targets.{JudgesRows};
ghost use Rattle.rules_aria.specs.AriaAttribute.{is_unknown, attribute_finding, attribute_verdict, aria_attribute_is_defined, aria_attribute_is_defined_info, aria_attribute_is_defined_target};

use crate::attribute_lines::aria_lines;
use acc_tree::aria_attrs;
use aria_tables::{attr_of, is_later};
use rule_core::{Class, Finding, Reason, Rule, RuleInfo, RuleNo, Verdict};
use rule_sights::row_of;
use snap_tree::{Attr, NodeId, OutOfMemory, Row, Tree};
use std::alloc::Global;

/// ACT rule 5f99a7, ARIA attribute is defined in WAI-ARIA
/// (<https://www.w3.org/WAI/standards-guidelines/act/rules/5f99a7/>). Its target is an element with an
/// attribute whose name begins `aria-`. It fails where such an attribute is neither known nor of a later
/// edition of WAI-ARIA; with one of a later edition a person has to judge. The evidence is the lines of
/// those attributes.
#[derive(Clone, Copy, Debug, PartialEq, Eq)]
pub struct AriaAttributeIsDefined;

impl AriaAttributeIsDefined {
    /// Its number.
    pub const NO: u16 = 19;

    /// What the rule says of itself.
    pub const INFO: RuleInfo = RuleInfo {
        no: RuleNo(Self::NO),
        id: *b"5f99a7",
        applies: Class::SelfOnly,
        expects: Class::SelfOnly,
        inputs: [0; 4],
    };

    /// The law of its targets: on each page it has a verdict exactly where the node is one. It does nothing: the clause
    /// is what it is for.
    #[tactic(auto, using(crate::proofs::Local::attributes))]
    pub fn law_of_targets()
        ensures { (page : Document) (n : NodeId) → JudgesRows aria_attribute_is_defined aria_attribute_is_defined_target page n }
    {}
}

fn is_unknown(attr: &Attr) -> bool
    ensures { result ≡ is_unknown attr.now }
{
    let name = attr.name.as_str().as_bytes();
    attr_of(name).is_none() && !is_later(name)
}

fn has_unknown(row: &Row) -> bool
    ensures { result ≡ list_any is_unknown (aria_attrs (seen_row row.now)) }
{
    aria_attrs(row).any(|attr| is_unknown(attr))
}

fn has_later(row: &Row) -> bool
    ensures { result ≡ list_any (λ a. is_later a.name) (aria_attrs (seen_row row.now)) }
{
    aria_attrs(row).any(|attr| is_later(attr.name.as_str().as_bytes()))
}

fn finding(row: &Row) -> Finding
    ensures { result ≡ attribute_finding (aria_attrs (seen_row row.now)) }
{
    if has_unknown(row) {
        Finding::failed(Reason::UnknownAttr)
    } else if has_later(row) {
        Finding::cant_tell(Reason::LaterAttr)
    } else {
        Finding::met()
    }
}

fn verdict(alloc: Global, row: &Row) -> Result<Option<Verdict>, OutOfMemory>
    ensures { IfOk result (λ verdict. verdict ≡ attribute_verdict (seen_row row.now)) }
{
    if aria_attrs(row).next().is_none() {
        return Ok(None);
    }
    let lines = aria_lines(alloc, row)?;
    Ok(Some(finding(row).verdict(alloc, &lines)?))
}

impl Rule for AriaAttributeIsDefined {
    ghost means = { aria_attribute_is_defined };

    ghost described = { aria_attribute_is_defined_info };

    fn info(&self) -> RuleInfo {
        Self::INFO
    }

    fn judge(&self, alloc: Global, tree: &Tree, n: NodeId) -> Result<Option<Verdict>, OutOfMemory> {
        match row_of(tree, n) {
            Some(row) => verdict(alloc, row),
            None => Ok(None),
        }
    }

    #[tactic(auto, using(crate::proofs::Local::attribute_local))]
    fn law_of_locality(&self) {}
}
