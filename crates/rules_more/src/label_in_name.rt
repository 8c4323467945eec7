ghost use Rattle.std.specs.Prelude.{◌≡◌, IfOk};
ghost use Rattle.acc_tree.specs.Seen.{seen_row, seen};
ghost use Rattle.acc_tree.specs.Sights.{seen_sight};
ghost use Rattle.acc_name.specs.Names.{name_of};
ghost use Rattle.snap_tree.specs.Trees.{Document};
ghost use Rattle.snap_tree.specs.declared.row.NodeId.{NodeId};
ghost use Rattle.rule_sights.specs.Targets.{JudgesSights};
ghost use Rattle.rules_more.specs.LabelInName.{label_verdict, is_named_by_aria, may_differ, said_of_label, name_has_label, name_has_label_info, name_has_label_target};

use crate::label_said::label_verdict;
use crate::last_said::LastSaid;
use crate::prepared::LastPrepared;
use crate::shown_text::LastShown;
use acc_name::name;
use acc_tree::{Above, Attribute, Sight, included_at, is_blank_at};
use aria_tables::{AriaAttr, Role};
use rule_core::{Class, NodeVerdict, Rule, RuleInfo, RuleNo, Verdict, push_verdict};
use rule_sights::sight_as;
use rules_names::is_html_element;
use snap_tree::{NodeId, OutOfMemory, Row, Text, Tree, blank};
use std::alloc::Global;

/// ACT rule 2ee8b8, Visible label is part of accessible name
/// (<https://www.w3.org/WAI/standards-guidelines/act/rules/2ee8b8/>). Its target is an included HTML element, of one of
/// the roles whose elements say what they show, that aria-label or aria-labelledby names and that shows a text which isn't
/// blank. It fails where the text has more than one character and no word of it is a word of the name; otherwise a person
/// has to judge where the name doesn't contain the text. Both compare ASCII case-insensitively. The evidence is the text,
/// a line feed, and the name.
#[derive(Clone, Copy, Debug, PartialEq, Eq)]
pub struct NameHasLabel;

impl NameHasLabel {
    /// Its number.
    pub const NO: u16 = 40;

    /// What the rule says of itself.
    pub const INFO: RuleInfo = RuleInfo {
        no: RuleNo(Self::NO),
        id: *b"2ee8b8",
        applies: Class::Sub,
        expects: Class::Sub,
        inputs: [0; 4],
    };

    /// The law of its targets: on each page it has a verdict exactly where the node is one. It does nothing: the clause
    /// is what it is for.
    #[tactic(auto, using(crate::proofs::Local::named))]
    pub fn law_of_targets()
        ensures { (page : Document) (n : NodeId) → JudgesSights name_has_label name_has_label_target page n }
    {}
}

/// The roles whose elements say what they show.
const LABELLED_ROLES: [Role; 11] = [
    Role::Button,
    Role::Checkbox,
    Role::Link,
    Role::Menuitem,
    Role::Menuitemcheckbox,
    Role::Menuitemradio,
    Role::OptionRole,
    Role::Radio,
    Role::Switch,
    Role::Tab,
    Role::Treeitem,
];

// What was last shown, prepared and said.
#[derive(Drop)]
struct Lasts {
    shown: LastShown,
    prepared: LastPrepared,
    said: LastSaid,
}

impl Lasts {
    fn new() -> Self {
        Lasts {
            shown: LastShown::new(),
            prepared: LastPrepared::new(),
            said: LastSaid::new(),
        }
    }
}

// Only what is shown again is prepared for further names.
fn verdict_anew(
    alloc: Global,
    lasts: &mut Lasts,
    shown: &Text,
    name: &Text,
) -> Result<Verdict, OutOfMemory>
    ensures { IfOk result (λ verdict. verdict ≡ label_verdict shown.now name.now) }
{
    if lasts.said.showed(shown) {
        lasts.prepared.verdict(alloc, shown, name)
    } else {
        label_verdict(alloc, shown, name)
    }
}

fn verdict_on(
    alloc: Global,
    lasts: &mut Lasts,
    shown: &Text,
    name: &Text,
) -> Result<Verdict, OutOfMemory>
    ensures { IfOk result (λ verdict. verdict ≡ label_verdict shown.now name.now) }
{
    if let Some(verdict) = lasts.said.again(alloc, shown, name)? {
        return Ok(verdict);
    }
    let verdict = verdict_anew(alloc, lasts, shown, name)?;
    lasts.said.keep(alloc, shown, name, &verdict)?;
    Ok(verdict)
}

fn is_named_by_aria(row: &Row) -> bool
    ensures { result ≡ is_named_by_aria (seen_row row.now) }
{
    !is_blank_at(row, Attribute::Aria(AriaAttr::Label))
        || !is_blank_at(row, Attribute::Aria(AriaAttr::Labelledby))
}

fn may_differ(above: &Above, row: &Row) -> bool
    ensures { result ≡ may_differ above.now (seen_row row.now) }
{
    is_html_element(row) && is_named_by_aria(row) && included_at(above, row)
}

fn verdict(
    alloc: Global,
    lasts: &mut Lasts,
    tree: &Tree,
    n: NodeId,
    sight: &Sight<'_>,
) -> Result<Option<Verdict>, OutOfMemory>
    ensures { IfOk result (λ verdict. verdict ≡ said_of_label (name_of (seen tree.now.trees) n).text (seen_sight sight.now)) }
{
    if !may_differ(&sight.above, sight.row) {
        return Ok(None);
    }
    let shown = lasts.shown.shown_text(alloc, &sight.below)?;
    if blank(&shown) {
        return Ok(None);
    }
    let name = name(alloc, tree, n)?;
    Ok(Some(verdict_on(alloc, lasts, &shown, &name.text)?))
}

fn verdict_among(
    alloc: Global,
    lasts: &mut Lasts,
    tree: &Tree,
    n: NodeId,
) -> Result<Option<Verdict>, OutOfMemory>
    ensures { IfOk result (λ verdict. verdict ≡ name_has_label tree.now n) }
{
    match sight_as(tree, n, &LABELLED_ROLES) {
        Some(sight) => verdict(alloc, lasts, tree, n, &sight),
        None => Ok(None),
    }
}

impl Rule for NameHasLabel {
    ghost means = { name_has_label };

    ghost described = { name_has_label_info };

    fn info(&self) -> RuleInfo {
        Self::INFO
    }

    fn judge(&self, alloc: Global, tree: &Tree, n: NodeId) -> Result<Option<Verdict>, OutOfMemory> {
        verdict_among(alloc, &mut Lasts::new(), tree, n)
    }

    /// Of elements that stand in one another and show the same text, only for the first is it tidied, and only for the
    /// first two is a long one gone over: each further one costs no more than its name.
    fn judge_page(&self, alloc: Global, tree: &Tree) -> Result<Vec<NodeVerdict>, OutOfMemory> {
        let mut lasts = Lasts::new();
        let mut verdicts = Vec::new(alloc);
        for row in tree.rows() {
            let verdict = verdict_among(alloc, &mut lasts, tree, row.id)?;
            push_verdict(&mut verdicts, row.id, verdict)?;
        }
        Ok(verdicts)
    }

    #[tactic(auto, using(crate::proofs::Local::label_in_name_local))]
    fn law_of_locality(&self) {}
}
