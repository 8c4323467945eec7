ghost use Rattle.std.specs.Prelude.{◌≡◌, IfOk};
ghost use Rattle.acc_tree.specs.Seen.{seen_row};
ghost use Rattle.snap_tree.specs.Trees.{Document};
ghost use Rattle.snap_tree.specs.declared.row.NodeId.{NodeId};
ghost use Rattle.rule_sights.specs.Targets.{JudgesRows};
ghost use Rattle.rules_page.specs.LanguageKnown.{language_verdict, language_is_known, language_is_known_info, language_is_known_target};

use crate::languages::tag_verdict;
use acc_tree::{Attribute, attr};
use rule_core::{Class, Rule, RuleInfo, RuleNo, Verdict};
use rule_sights::page_root;
use snap_tree::{List, NodeId, OutOfMemory, Row, Text, Tree, blank};
use std::alloc::Global;

/// ACT rule bf051a, HTML page lang attribute has valid language tag
/// (<https://www.w3.org/WAI/standards-guidelines/act/rules/bf051a/>). Its target is the root of a page
/// whose lang isn't blank. It fails where the primary subtag is unknown; a person has to judge one of three
/// letters, unless the page's site accepts it. The evidence is lang.
#[derive(Clone, Copy, Debug, PartialEq, Eq)]
pub struct LanguageIsKnown;

impl LanguageIsKnown {
    /// Its number.
    pub const NO: u16 = 4;

    /// What the rule says of itself.
    pub const INFO: RuleInfo = RuleInfo {
        no: RuleNo(Self::NO),
        id: *b"bf051a",
        applies: Class::SelfOnly,
        expects: Class::Lang,
        inputs: [0; 4],
    };

    /// The law of its targets: on each page it has a verdict exactly where the node is one. It does nothing: the clause
    /// is what it is for.
    #[tactic(auto, using(crate::proofs::Local::known))]
    pub fn law_of_targets()
        ensures { (page : Document) (n : NodeId) → JudgesRows language_is_known language_is_known_target page n }
    {}
}

fn verdict(alloc: Global, accepted: &List<Text>, root: &Row) -> Result<Option<Verdict>, OutOfMemory>
    ensures { IfOk result (λ verdict. verdict ≡ language_verdict accepted.now (seen_row root.now)) }
{
    match attr(root, Attribute::Lang) {
        Some(lang) if !blank(lang) => Ok(Some(tag_verdict(alloc, accepted, lang)?)),
        _ => Ok(None),
    }
}

impl Rule for LanguageIsKnown {
    ghost means = { language_is_known };

    ghost described = { language_is_known_info };

    fn info(&self) -> RuleInfo {
        Self::INFO
    }

    fn judge(&self, alloc: Global, tree: &Tree, n: NodeId) -> Result<Option<Verdict>, OutOfMemory> {
        match page_root(tree, n) {
            Some(root) => verdict(alloc, tree.langs(), root),
            None => Ok(None),
        }
    }

    #[tactic(auto, using(crate::proofs::Local::known_local))]
    fn law_of_locality(&self) {}
}
