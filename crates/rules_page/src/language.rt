ghost use Rattle.snap_tree.specs.Trees.{Document};
ghost use Rattle.snap_tree.specs.declared.row.NodeId.{NodeId};
ghost use Rattle.rule_sights.specs.Targets.{JudgesRows};
ghost use Rattle.rules_page.specs.Language.{page_has_lang, page_has_lang_info, page_has_lang_target};

use crate::filled::filled;
use acc_tree::{Attribute, attr};
use rule_core::{Class, Reason, Rule, RuleInfo, RuleNo, Verdict};
use rule_sights::page_root;
use snap_tree::{NodeId, OutOfMemory, Tree};
use std::alloc::Global;

/// ACT rule b5c3f8, HTML page has lang attribute, restated as published at
/// <https://www.w3.org/WAI/standards-guidelines/act/rules/b5c3f8/>. Its target is the root of a page. It
/// fails where the root has no attribute `lang`, or a blank one. The evidence is the attribute's value.
#[derive(Clone, Copy, Debug, PartialEq, Eq)]
pub struct PageHasLang;

impl PageHasLang {
    /// Its number.
    pub const NO: u16 = 3;

    /// What the rule says of itself.
    pub const INFO: RuleInfo = RuleInfo {
        no: RuleNo(Self::NO),
        id: *b"b5c3f8",
        applies: Class::SelfOnly,
        expects: Class::SelfOnly,
        inputs: [0; 4],
    };

    /// The law of its targets: on each page it has a verdict exactly where the node is one. It does nothing: the clause
    /// is what it is for.
    #[tactic(auto, using(crate::proofs::Local::languages))]
    pub fn law_of_targets()
        ensures { (page : Document) (n : NodeId) → JudgesRows page_has_lang page_has_lang_target page n }
    {}
}

impl Rule for PageHasLang {
    ghost means = { page_has_lang };

    ghost described = { page_has_lang_info };

    fn info(&self) -> RuleInfo {
        Self::INFO
    }

    fn judge(&self, alloc: Global, tree: &Tree, n: NodeId) -> Result<Option<Verdict>, OutOfMemory> {
        let Some(root) = page_root(tree, n) else {
            return Ok(None);
        };
        let lang = attr(root, Attribute::Lang);
        let finding = filled(lang, Reason::NoLang, Reason::EmptyLang);
        Ok(Some(finding.verdict_on(alloc, lang)?))
    }

    #[tactic(auto, using(crate::proofs::Local::language_local))]
    fn law_of_locality(&self) {}
}
