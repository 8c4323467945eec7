ghost use Rattle.std.specs.Prelude.{◌≡◌, IfOk};
ghost use Rattle.aria_tables.specs.Owning.{allowed_owned, looks_through};
ghost use Rattle.acc_tree.specs.Owning.{owned_by};
ghost use Rattle.acc_tree.specs.Seen.{seen_row, seen};
ghost use Rattle.acc_tree.specs.Sights.{seen_sight};
ghost use Rattle.snap_tree.specs.Trees.{Document};
ghost use Rattle.snap_tree.specs.declared.row.NodeId.{NodeId};
ghost use Rattle.rule_sights.specs.Targets.{JudgesRows};
ghost use Rattle.rules_aria.specs.OwnedElements.{are_allowed, owned_finding, role_words, verdict_on, is_owner_target, owned_verdict, owns_required_elements, owns_required_elements_info, owns_required_elements_target};

use crate::joined::add_word;
use acc_tree::{
    Above, Attribute, OwnedElement, Sight, explicit_at, included_at, is_word_at, owned_by,
};
use aria_tables::{AriaAttr, Role, allowed_owned, looks_through};
use rule_core::{Class, Finding, Reason, Rule, RuleInfo, RuleNo, Verdict};
use rule_sights::sight_with;
use snap_tree::{NodeId, OutOfMemory, Row, Text, Tree};
use std::alloc::Global;

/// ACT rule bc4a75, ARIA required owned elements
/// (<https://www.w3.org/WAI/standards-guidelines/act/rules/bc4a75/>). Its target is an included element
/// whose explicit role is asked what it owns, and whose aria-busy isn't `true`. It fails where it owns
/// an element of a role that isn't allowed; where it owns nothing, a person has to judge. It owns what stands
/// below it and what it follows by aria-owns. In the place of an element of a role that is looked through
/// stands what that owns, again and again. The evidence is the roles of what it owns.
#[derive(Clone, Copy, Debug, PartialEq, Eq)]
pub struct OwnsRequiredElements;

impl OwnsRequiredElements {
    /// Its number.
    pub const NO: u16 = 22;

    /// What the rule says of itself.
    pub const INFO: RuleInfo = RuleInfo {
        no: RuleNo(Self::NO),
        id: *b"bc4a75",
        applies: Class::SelfOnly,
        expects: Class::Sub,
        inputs: [0; 4],
    };

    /// The law of its targets: on each page it has a verdict exactly where the node is one. It does nothing: the clause
    /// is what it is for.
    #[tactic(auto, using(crate::proofs::Local::owners))]
    pub fn law_of_targets()
        ensures { (page : Document) (n : NodeId) → JudgesRows owns_required_elements owns_required_elements_target page n }
    {}
}

fn are_allowed(allowed: &[Role], elements: &[OwnedElement]) -> bool
    ensures { result ≡ are_allowed allowed.now elements.now }
{
    elements
        .iter()
        .all(|element| element.role.is_one_of(allowed))
}

fn finding(allowed: &[Role], elements: &[OwnedElement]) -> Finding
    ensures { result ≡ owned_finding allowed.now elements.now }
{
    if elements.is_empty() {
        Finding::cant_tell(Reason::NothingOwned)
    } else if are_allowed(allowed, elements) {
        Finding::met()
    } else {
        Finding::failed(Reason::BadOwned)
    }
}

fn role_words(alloc: Global, elements: &[OwnedElement]) -> Result<Text, OutOfMemory>
    ensures { IfOk result (λ text. text ≡ role_words elements.now) }
{
    let mut words = String::new(alloc);
    for element in elements {
        add_word(&mut words, element.role.word())?;
    }
    Ok(Text::from_string(words))
}

fn verdict_on(
    alloc: Global,
    allowed: &[Role],
    elements: &[OwnedElement],
) -> Result<Verdict, OutOfMemory>
    ensures { IfOk result (λ verdict. verdict ≡ verdict_on allowed.now elements.now) }
{
    let words = role_words(alloc, elements)?;
    finding(allowed, elements).verdict(alloc, &words)
}

fn is_target(above: &Above, row: &Row, role: Role) -> bool
    ensures { result ≡ is_owner_target above.now (seen_row row.now) role }
{
    !allowed_owned(role).is_empty()
        && !is_word_at(row, Attribute::Aria(AriaAttr::Busy), "true")
        && included_at(above, row)
}

// What is said of an element of this role by what it owns.
fn owning_verdict(
    alloc: Global,
    tree: &Tree,
    sight: Sight<'_>,
    role: Role,
) -> Result<Verdict, OutOfMemory>
    ensures { IfOk result (λ verdict. verdict ≡ verdict_on (allowed_owned role)
        (owned_by (looks_through role) (seen tree.now.trees) 1 (seen_sight sight.entry))) }
{
    let elements = owned_by(alloc, tree, sight, 1, looks_through(role))?;
    verdict_on(alloc, allowed_owned(role), elements.as_slice())
}

fn verdict(alloc: Global, tree: &Tree, sight: Sight<'_>) -> Result<Option<Verdict>, OutOfMemory>
    ensures { IfOk result (λ verdict. verdict ≡ owned_verdict (seen tree.now.trees) (seen_sight sight.entry)) }
{
    let Some(role) = explicit_at(sight.row) else {
        return Ok(None);
    };
    if !is_target(&sight.above, sight.row, role) {
        return Ok(None);
    }
    Ok(Some(owning_verdict(alloc, tree, sight, role)?))
}

impl Rule for OwnsRequiredElements {
    ghost means = { owns_required_elements };

    ghost described = { owns_required_elements_info };

    fn info(&self) -> RuleInfo {
        Self::INFO
    }

    fn judge(&self, alloc: Global, tree: &Tree, n: NodeId) -> Result<Option<Verdict>, OutOfMemory> {
        match sight_with(tree, n, Attribute::RoleAttr) {
            Some(sight) => verdict(alloc, tree, sight),
            None => Ok(None),
        }
    }

    #[tactic(auto, using(crate::proofs::Local::owned_local))]
    fn law_of_locality(&self) {}
}
