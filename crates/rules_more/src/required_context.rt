ghost use Rattle.std.specs.Prelude.{◌≡◌, ◌++◌, IfOk, OnOk};
ghost use Rattle.acc_tree.specs.Seen.{seen_row, seen};
ghost use Rattle.acc_tree.specs.Sights.{seen_sight};
ghost use Rattle.snap_tree.specs.Trees.{Document};
ghost use Rattle.snap_tree.specs.declared.row.NodeId.{NodeId};
ghost use Rattle.rule_sights.specs.Targets.{JudgesRows};
ghost use Rattle.rules_more.specs.Contexts.{context_at, verdicts_in};
ghost use Rattle.rules_more.specs.RequiredContext.{is_allowed, context_finding, context_words, context_verdict, is_context_target, said_by_context, said_in_context, stands_in_context, stands_in_context_info, stands_in_context_target};

use crate::contexts::{Contexts, nearest_counting};
use crate::role_contexts::{context_roles, passed_roles};
use acc_tree::{Above, Attribute, Sight, explicit_at, included_at, is_blank_at, under};
use aria_tables::Role;
use rule_core::{
    Class, Finding, NodeVerdict, Reason, Rule, RuleInfo, RuleNo, Verdict, push_verdict,
};
use rule_sights::sight_with;
use rules_names::role_word;
use snap_tree::{Branches, NodeId, OutOfMemory, Row, Text, Tree};
use std::alloc::Global;

/// ACT rule ff89c9, ARIA required context role
/// (<https://www.w3.org/WAI/standards-guidelines/act/rules/ff89c9/>). Its target is an included element of an explicit
/// role that has to stand in another. It fails where the nearest role above that counts isn't one of those; where the
/// element has an id, another one may own it, and a person has to judge. The evidence is the role and the one that it
/// stands in, or `-`.
#[derive(Clone, Copy, Debug, PartialEq, Eq)]
pub struct StandsInContext;

impl StandsInContext {
    /// Its number.
    pub const NO: u16 = 37;

    /// What the rule says of itself.
    pub const INFO: RuleInfo = RuleInfo {
        no: RuleNo(Self::NO),
        id: *b"ff89c9",
        applies: Class::SelfOnly,
        expects: Class::SelfOnly,
        inputs: [0; 4],
    };

    /// The law of its targets: on each page it has a verdict exactly where the node is one. It does nothing: the clause
    /// is what it is for.
    #[tactic(auto, using(crate::proofs::Local::contexts))]
    pub fn law_of_targets()
        ensures { (page : Document) (n : NodeId) → JudgesRows stands_in_context stands_in_context_target page n }
    {}
}

fn is_allowed(role: Role, context: Option<Role>) -> bool
    ensures { result ≡ is_allowed role context }
{
    match context {
        Some(context) => context.is_one_of(context_roles(role)),
        None => false,
    }
}

fn finding(row: &Row, role: Role, context: Option<Role>) -> Finding
    ensures { result ≡ context_finding (seen_row row.now) role context }
{
    if is_allowed(role, context) {
        Finding::met()
    } else if is_blank_at(row, Attribute::Id) {
        Finding::failed(Reason::NoContext)
    } else {
        Finding::cant_tell(Reason::MaybeOwned)
    }
}

fn context_words(alloc: Global, role: Role, context: Option<Role>) -> Result<Text, OutOfMemory>
    ensures { IfOk result (λ text. text ≡ context_words role context) }
{
    let mut words = String::from_str(alloc, role.word())?;
    words.push(' ')?;
    words.push_str(role_word(context))?;
    Ok(Text::from_string(words))
}

fn verdict_on(
    alloc: Global,
    row: &Row,
    role: Role,
    context: Option<Role>,
) -> Result<Verdict, OutOfMemory>
    ensures { IfOk result (λ verdict. verdict ≡ context_verdict (seen_row row.now) role context) }
{
    let words = context_words(alloc, role, context)?;
    finding(row, role, context).verdict(alloc, &words)
}

fn is_target(above: &Above, row: &Row, role: Role) -> bool
    ensures { result ≡ is_context_target above.now (seen_row row.now) role }
{
    !context_roles(role).is_empty() && included_at(above, row)
}

// The verdict on a node by itself: its context is looked for above it.
fn verdict_below(
    alloc: Global,
    tree: &Tree,
    sight: &Sight<'_>,
) -> Result<Option<Verdict>, OutOfMemory>
    ensures { IfOk result (λ verdict. verdict ≡ said_in_context (seen tree.now.trees) (seen_sight sight.now)) }
{
    let Some(role) = explicit_at(sight.row) else {
        return Ok(None);
    };
    if !is_target(&sight.above, sight.row, role) {
        return Ok(None);
    }
    let context = nearest_counting(tree, sight.row.parent, passed_roles(role));
    Ok(Some(verdict_on(alloc, sight.row, role, context)?))
}

// The verdict on a row, given its contexts.
fn verdict_in(
    alloc: Global,
    contexts: Contexts,
    above: &Above,
    row: &Row,
) -> Result<Option<Verdict>, OutOfMemory>
    ensures { IfOk result (λ verdict. verdict ≡ said_by_context (context_at contexts) above.now (seen_row row.now)) }
{
    let Some(role) = explicit_at(row) else {
        return Ok(None);
    };
    if !is_target(above, row, role) {
        return Ok(None);
    }
    Ok(Some(verdict_on(alloc, row, role, contexts.of(role))?))
}

// Adds the verdicts on these trees, in document order. The contexts are carried down.
fn add_verdicts<'a>(
    alloc: Global,
    verdicts: &mut Vec<NodeVerdict>,
    above: &Above<'a>,
    contexts: Contexts,
    trees: Branches<'a>,
) -> Result<(), OutOfMemory>
    ensures { OnOk result (verdicts.new.items ≡ verdicts.old.items ++ verdicts_in above.now contexts (seen trees.entry)) }
{
    let mut rest = trees;
    while let Some(branch) = rest.first() {
        let row = branch.row;
        let verdict = verdict_in(alloc, contexts, above, row)?;
        push_verdict(verdicts, row.id, verdict)?;
        add_verdicts(
            alloc,
            verdicts,
            &under(above, row),
            contexts.within(above, row),
            branch.kids,
        )?;
        rest = branch.after;
    }
    Ok(())
}

impl Rule for StandsInContext {
    ghost means = { stands_in_context };

    ghost described = { stands_in_context_info };

    fn info(&self) -> RuleInfo {
        Self::INFO
    }

    fn judge(&self, alloc: Global, tree: &Tree, n: NodeId) -> Result<Option<Verdict>, OutOfMemory> {
        match sight_with(tree, n, Attribute::RoleAttr) {
            Some(sight) => verdict_below(alloc, tree, &sight),
            None => Ok(None),
        }
    }

    /// The page is gone over once, and no node climbs.
    #[tactic(auto, using(crate::proofs::Passing::page_passed))]
    fn judge_page(&self, alloc: Global, tree: &Tree) -> Result<Vec<NodeVerdict>, OutOfMemory> {
        let _rows = tree.rows();
        let mut verdicts = Vec::new(alloc);
        let above = Above::nothing();
        add_verdicts(
            alloc,
            &mut verdicts,
            &above,
            Contexts::none(),
            tree.branches(),
        )?;
        Ok(verdicts)
    }

    #[tactic(auto, using(crate::proofs::Local::context_local))]
    fn law_of_locality(&self) {}
}
