ghost use Rattle.std.specs.Prelude.{◌≡◌, IfOk, option_map};
ghost use Rattle.texts.specs.Words.{words};
ghost use Rattle.acc_tree.specs.Roles.{first_known, named_role, is_decoration, is_focusable, is_global_name, has_global, is_empty_text, role_at};
ghost use Rattle.acc_tree.specs.declared.attributes.Attribute.TheVariants as attribute;
ghost use Rattle.acc_tree.specs.Seen.{seen_row, seen, attr};
ghost use Rattle.acc_tree.specs.Sights.{seen_sight};
ghost use Rattle.rule_sights.specs.Nodes.{sight_where};
ghost use Rattle.snap_tree.specs.Trees.{Document};
ghost use Rattle.snap_tree.specs.declared.row.NodeId.{NodeId};
ghost use Rattle.rule_sights.specs.Targets.{JudgesRows};
ghost use Rattle.rules_more.specs.MarkedDecorative.{is_marked_by_role, is_marked_image, is_marked, is_of_use, marked_finding, marked_verdict, decorative_is_not_exposed, decorative_is_not_exposed_info, decorative_is_not_exposed_target};

use acc_tree::{
    Above, Attribute, Sight, aria_attrs, attr, exposed_at, is_blank_at, role_at, sight_of,
};
use aria_tables::{Role, attr_of, is_global, role_of};
use rule_core::{Class, Finding, Reason, Rule, RuleInfo, RuleNo, Verdict};
use rules_names::{is_html_element, is_img, role_word};
use snap_tree::{Facts, NodeId, OutOfMemory, Row, Text, Tree, next_word};
use std::alloc::Global;

/// ACT rule 46ca7f, Element marked as decorative is not exposed
/// (<https://www.w3.org/WAI/standards-guidelines/act/rules/46ca7f/>). Its target is an HTML element of which the first
/// known role that it names is none or presentation, or an HTML `img` that names no role and whose alt is empty. It fails
/// where the element is exposed, and is focusable or has a global ARIA attribute. The evidence is its role, or `-`.
#[derive(Clone, Copy, Debug, PartialEq, Eq)]
pub struct DecorativeIsNotExposed;

impl DecorativeIsNotExposed {
    /// Its number.
    pub const NO: u16 = 38;

    /// What the rule says of itself.
    pub const INFO: RuleInfo = RuleInfo {
        no: RuleNo(Self::NO),
        id: *b"46ca7f",
        applies: Class::SelfOnly,
        expects: Class::SelfOnly,
        inputs: [0; 4],
    };

    /// The law of its targets: on each page it has a verdict exactly where the node is one. It does nothing: the clause
    /// is what it is for.
    #[tactic(auto, using(crate::proofs::Local::decorative))]
    pub fn law_of_targets()
        ensures { (page : Document) (n : NodeId) → JudgesRows decorative_is_not_exposed decorative_is_not_exposed_target page n }
    {}
}

// The first known role among the words of a text.
fn first_known(text: &str) -> Option<Role>
    ensures { result ≡ first_known (words text.now) }
{
    let mut rest = text;
    while let Some((word, later)) = next_word(rest) {
        let known = role_of(word.as_bytes());
        if known.is_some() {
            return known;
        }
        rest = later;
    }
    None
}

fn named_role(row: &Row) -> Option<Role>
    ensures { result ≡ named_role (seen_row row.now) }
{
    match attr(row, Attribute::RoleAttr) {
        Some(text) => first_known(text.as_str()),
        None => None,
    }
}

fn is_decoration(role: Option<Role>) -> bool
    ensures { result ≡ is_decoration role }
{
    matches!(role, Some(Role::NoneRole | Role::Presentation))
}

fn is_marked_by_role(row: &Row) -> bool
    ensures { result ≡ is_marked_by_role (seen_row row.now) }
{
    is_html_element(row) && is_decoration(named_role(row))
}

fn has_empty_alt(row: &Row) -> bool
    ensures { result ≡ is_empty_text (attr attribute.Alt (seen_row row.now)) }
{
    match attr(row, Attribute::Alt) {
        Some(alt) => alt.is_empty(),
        None => false,
    }
}

fn is_marked_image(row: &Row) -> bool
    ensures { result ≡ is_marked_image (seen_row row.now) }
{
    is_img(row) && is_blank_at(row, Attribute::RoleAttr) && has_empty_alt(row)
}

fn is_marked(row: &Row) -> bool
    ensures { result ≡ is_marked (seen_row row.now) }
{
    is_marked_by_role(row) || is_marked_image(row)
}

fn is_focusable(facts: Facts) -> bool
    ensures { result ≡ is_focusable facts }
{
    facts.focusable | facts.tabbable
}

fn is_global_name(name: &str) -> bool
    ensures { result ≡ is_global_name name.now }
{
    match attr_of(name.as_bytes()) {
        Some(attr) => is_global(attr),
        None => false,
    }
}

fn has_global(row: &Row) -> bool
    ensures { result ≡ has_global (seen_row row.now) }
{
    aria_attrs(row).any(|attr| is_global_name(attr.name.as_str()))
}

fn is_of_use(row: &Row) -> bool
    ensures { result ≡ is_of_use (seen_row row.now) }
{
    is_focusable(row.facts) || has_global(row)
}

fn finding(above: &Above, row: &Row) -> Finding
    ensures { result ≡ marked_finding above.now (seen_row row.now) }
{
    if exposed_at(above, row) && is_of_use(row) {
        Finding::failed(Reason::MarkedExposed)
    } else {
        Finding::met()
    }
}

fn verdict(alloc: Global, above: &Above, row: &Row) -> Result<Option<Verdict>, OutOfMemory>
    ensures { IfOk result (λ verdict. verdict ≡ marked_verdict above.now (seen_row row.now)) }
{
    let word = Text::from_str(alloc, role_word(role_at(above, row)))?;
    Ok(Some(finding(above, row).verdict(alloc, &word)?))
}

// The sight of a node that is marked as decorative. Of any other nothing but its row is looked at.
#[tactic(auto, using(rule_sights::proofs::RowFirst::no_node, rule_sights::proofs::RowFirst::has_not, rule_sights::proofs::RowFirst::has_it))]
fn marked_sight(tree: &Tree, n: NodeId) -> Option<Sight<'_>>
    ensures { option_map seen_sight result ≡ sight_where is_marked (seen tree.now.trees) n }
{
    match tree.node(n) {
        Some(row) if is_marked(row) => sight_of(tree, n),
        _ => None,
    }
}

impl Rule for DecorativeIsNotExposed {
    ghost means = { decorative_is_not_exposed };

    ghost described = { decorative_is_not_exposed_info };

    fn info(&self) -> RuleInfo {
        Self::INFO
    }

    fn judge(&self, alloc: Global, tree: &Tree, n: NodeId) -> Result<Option<Verdict>, OutOfMemory> {
        match marked_sight(tree, n) {
            Some(sight) => verdict(alloc, &sight.above, sight.row),
            None => Ok(None),
        }
    }

    #[tactic(auto, using(crate::proofs::Local::decorative_local))]
    fn law_of_locality(&self) {}
}
