ghost use Rattle.std.specs.Prelude.{◌≡◌, IfOk};
ghost use Rattle.snap_tree.specs.Trees.{Document};
ghost use Rattle.snap_tree.specs.declared.row.NodeId.{NodeId};
ghost use Rattle.rule_sights.specs.Targets.{JudgesRows};
ghost use Rattle.acc_tree.specs.Seen.{seen};
ghost use Rattle.rules_page.specs.PageTitle.{page_title};
ghost use Rattle.rules_page.specs.TitleDescriptive.{title_and_address, asks_a_person, title_is_descriptive, title_is_descriptive_info, title_is_descriptive_target};

use crate::page_title::page_title;
use rule_core::{Class, Finding, Reason, Rule, RuleInfo, RuleNo, Verdict};
use rule_sights::page_root;
use snap_tree::{NodeId, OutOfMemory, Text, Tree, blank};
use std::alloc::Global;

/// ACT rule c4a8a4, HTML page title is descriptive
/// (<https://www.w3.org/WAI/standards-guidelines/act/rules/c4a8a4/>). Its target is the root of a page whose
/// title isn't blank. A person has to judge it. The evidence is the page title and the address.
#[derive(Clone, Copy, Debug, PartialEq, Eq)]
pub struct TitleIsDescriptive;

impl TitleIsDescriptive {
    /// Its number.
    pub const NO: u16 = 2;

    /// What the rule says of itself.
    pub const INFO: RuleInfo = RuleInfo {
        no: RuleNo(Self::NO),
        id: *b"c4a8a4",
        applies: Class::Title,
        expects: Class::Title,
        inputs: [0; 4],
    };

    /// The law of its targets: on each page it has a verdict exactly where the node is one. It does nothing: the clause
    /// is what it is for.
    #[tactic(auto, using(crate::proofs::Local::descriptive))]
    pub fn law_of_targets()
        ensures { (page : Document) (n : NodeId) → JudgesRows title_is_descriptive (title_is_descriptive_target (page_title (seen page.trees))) page n }
    {}
}

fn title_and_address(alloc: Global, title: &Text, address: &Text) -> Result<Text, OutOfMemory>
    ensures { IfOk result (λ text. text ≡ title_and_address title.now address.now) }
{
    let mut text = String::from_str(alloc, title.as_str())?;
    text.push('\n')?;
    text.push_str(address.as_str())?;
    Ok(Text::from_string(text))
}

fn asks_a_person(
    alloc: Global,
    address: &Text,
    title: &Text,
) -> Result<Option<Verdict>, OutOfMemory>
    ensures { IfOk result (λ verdict. verdict ≡ asks_a_person address.now title.now) }
{
    if blank(title) {
        return Ok(None);
    }
    let evidence = title_and_address(alloc, title, address)?;
    let finding = Finding::cant_tell(Reason::JudgeTitle);
    Ok(Some(finding.verdict(alloc, &evidence)?))
}

impl Rule for TitleIsDescriptive {
    ghost means = { title_is_descriptive };

    ghost described = { title_is_descriptive_info };

    fn info(&self) -> RuleInfo {
        Self::INFO
    }

    fn judge(&self, alloc: Global, tree: &Tree, n: NodeId) -> Result<Option<Verdict>, OutOfMemory> {
        if page_root(tree, n).is_none() {
            return Ok(None);
        }
        match page_title(alloc, tree)? {
            Some(title) => asks_a_person(alloc, tree.address(), &title),
            None => Ok(None),
        }
    }

    #[tactic(auto, using(crate::proofs::Local::descriptive_local))]
    fn law_of_locality(&self) {}
}
