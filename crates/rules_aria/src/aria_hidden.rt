ghost use Rattle.std.specs.Prelude.{◌≡◌, ◌<◌, ◌^◌, decimal, IfOk};
ghost use Rattle.acc_tree.specs.Sights.{seen_sight};
ghost use Rattle.snap_tree.specs.Trees.{Document};
ghost use Rattle.snap_tree.specs.declared.row.NodeId.{NodeId};
ghost use Rattle.rule_sights.specs.Targets.{JudgesRows};
ghost use Rattle.rules_aria.specs.AriaHidden.{stops_among, stops, focus_finding, number_words, hidden_verdict, hidden_holds_no_focus, hidden_holds_no_focus_info, hidden_holds_no_focus_target};

use crate::joined::add_word;
use acc_tree::{Attribute, Sight, is_hidden};
use aria_tables::AriaAttr;
use rule_core::{Class, Finding, Reason, Rule, RuleInfo, RuleNo, Verdict};
use rule_sights::sight_with;
use snap_tree::{NodeId, OutOfMemory, Row, Text, Tree};
use std::alloc::Global;

/// ACT rule 6cfa84, Element with aria-hidden has no content in sequential focus navigation
/// (<https://www.w3.org/WAI/standards-guidelines/act/rules/6cfa84/>). Its target is an element with
/// aria-hidden `true`. It fails where the Tab key stops at it or at a node below it. The evidence is the
/// numbers of those nodes.
#[derive(Clone, Copy, Debug, PartialEq, Eq)]
pub struct HiddenHoldsNoFocus;

impl HiddenHoldsNoFocus {
    /// Its number.
    pub const NO: u16 = 23;

    /// What the rule says of itself.
    pub const INFO: RuleInfo = RuleInfo {
        no: RuleNo(Self::NO),
        id: *b"6cfa84",
        applies: Class::SelfOnly,
        expects: Class::Sub,
        inputs: [0; 4],
    };

    /// The law of its targets: on each page it has a verdict exactly where the node is one. It does nothing: the clause
    /// is what it is for.
    #[tactic(auto, using(crate::proofs::Local::hidden))]
    pub fn law_of_targets()
        ensures { (page : Document) (n : NodeId) → JudgesRows hidden_holds_no_focus hidden_holds_no_focus_target page n }
    {}
}

/// The numbers of those of these rows at which the Tab key stops, in their order. Fails only for want of memory.
pub fn stops_among(alloc: Global, rows: &[Row]) -> Result<Vec<NodeId>, OutOfMemory>
    ensures { IfOk result (λ nodes. nodes.items ≡ stops_among rows.now) }
{
    let mut nodes = Vec::new(alloc);
    for row in rows {
        if row.facts.tabbable {
            nodes.push(row.id)?;
        }
    }
    Ok(nodes)
}

#[tactic(auto, using(crate::proofs::Stopping::stops_seen))]
fn stops(alloc: Global, sight: &Sight<'_>) -> Result<Vec<NodeId>, OutOfMemory>
    ensures { IfOk result (λ nodes. nodes.items ≡ stops (seen_sight sight.now)) }
{
    let mut nodes = stops_among(alloc, sight.below.rows())?;
    if sight.row.facts.tabbable {
        nodes.insert(0, sight.row.id)?;
    }
    Ok(nodes)
}

/// What is found where the Tab key is to stop at no node: it fails where there is one.
pub fn focus_finding(nodes: &[NodeId]) -> Finding
    ensures { result ≡ focus_finding nodes.now }
{
    if nodes.is_empty() {
        Finding::met()
    } else {
        Finding::failed(Reason::FocusableInside)
    }
}

fn number_word(alloc: Global, number: u32) -> Result<Text, OutOfMemory>
    ensures word { IfOk result (λ word. word ≡ decimal number) }
    ensures small { number < 2 ^ 32 }
{
    Ok(Text::from_string(format!(in alloc; "{number}")?))
}

/// The numbers in decimal, with one space between. Fails only for want of memory.
pub fn number_words(alloc: Global, nodes: &[NodeId]) -> Result<Text, OutOfMemory>
    ensures { IfOk result (λ text. text ≡ number_words nodes.now) }
{
    let mut words = String::new(alloc);
    for n in nodes {
        let word = number_word(alloc, n.0)?;
        add_word(&mut words, word.as_str())?;
    }
    Ok(Text::from_string(words))
}

fn verdict(alloc: Global, sight: &Sight<'_>) -> Result<Option<Verdict>, OutOfMemory>
    ensures { IfOk result (λ verdict. verdict ≡ hidden_verdict (seen_sight sight.now)) }
{
    if !is_hidden(sight.row) {
        return Ok(None);
    }
    let nodes = stops(alloc, sight)?;
    let words = number_words(alloc, nodes.as_slice())?;
    Ok(Some(focus_finding(nodes.as_slice()).verdict(alloc, &words)?))
}

impl Rule for HiddenHoldsNoFocus {
    ghost means = { hidden_holds_no_focus };

    ghost described = { hidden_holds_no_focus_info };

    fn info(&self) -> RuleInfo {
        Self::INFO
    }

    fn judge(&self, alloc: Global, tree: &Tree, n: NodeId) -> Result<Option<Verdict>, OutOfMemory> {
        match sight_with(tree, n, Attribute::Aria(AriaAttr::Hidden)) {
            Some(sight) => verdict(alloc, &sight),
            None => Ok(None),
        }
    }

    #[tactic(auto, using(crate::proofs::Local::hidden_local))]
    fn law_of_locality(&self) {}
}
