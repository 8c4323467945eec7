ghost use Rattle.std.specs.Prelude.{◌≡◌, IfOk};
ghost use Rattle.acc_tree.specs.Seen.{seen_row};
ghost use Rattle.snap_tree.specs.Trees.{Document};
ghost use Rattle.snap_tree.specs.declared.row.NodeId.{NodeId};
ghost use Rattle.rule_sights.specs.Targets.{JudgesRows};
ghost use Rattle.rules_more.specs.LanguagesMatch.{languages_finding, both_lines, has_both, root_verdict, languages_match, languages_match_info, languages_match_target};

use acc_tree::{Attribute, is_blank_at, text_at};
use rule_core::{Class, Finding, Reason, Rule, RuleInfo, RuleNo, Verdict};
use rule_sights::page_root;
use rules_page::primary_subtag;
use snap_tree::{NodeId, OutOfMemory, Row, Text, Tree, same_folded};
use std::alloc::Global;

/// ACT rule 5b7ae0, HTML page lang and xml:lang attributes have matching values
/// (<https://www.w3.org/WAI/standards-guidelines/act/rules/5b7ae0/>). Its target is the root of a page of which neither
/// lang nor xml:lang is blank. It fails where their primary subtags differ, which compare ASCII case-insensitively. The
/// evidence is lang, a line feed, and xml:lang.
#[derive(Clone, Copy, Debug, PartialEq, Eq)]
pub struct LanguagesMatch;

impl LanguagesMatch {
    /// Its number.
    pub const NO: u16 = 31;

    /// What the rule says of itself.
    pub const INFO: RuleInfo = RuleInfo {
        no: RuleNo(Self::NO),
        id: *b"5b7ae0",
        applies: Class::SelfOnly,
        expects: Class::SelfOnly,
        inputs: [0; 4],
    };

    /// The law of its targets: on each page it has a verdict exactly where the node is one. It does nothing: the clause
    /// is what it is for.
    #[tactic(auto, using(crate::proofs::Local::languages))]
    pub fn law_of_targets()
        ensures { (page : Document) (n : NodeId) → JudgesRows languages_match languages_match_target page n }
    {}
}

fn finding(lang: &str, xml: &str) -> Finding
    ensures { result ≡ languages_finding lang.now xml.now }
{
    if same_folded(primary_subtag(lang), primary_subtag(xml)) {
        Finding::met()
    } else {
        Finding::failed(Reason::LangMismatch)
    }
}

fn both_lines(alloc: Global, lang: &str, xml: &str) -> Result<Text, OutOfMemory>
    ensures { IfOk result (λ text. text ≡ both_lines lang.now xml.now) }
{
    let mut text = String::from_str(alloc, lang)?;
    text.push('\n')?;
    text.push_str(xml)?;
    Ok(Text::from_string(text))
}

fn has_both(row: &Row) -> bool
    ensures { result ≡ has_both (seen_row row.now) }
{
    !is_blank_at(row, Attribute::Lang) && !is_blank_at(row, Attribute::XmlLang)
}

fn verdict(alloc: Global, root: &Row) -> Result<Option<Verdict>, OutOfMemory>
    ensures { IfOk result (λ verdict. verdict ≡ root_verdict (seen_row root.now)) }
{
    if !has_both(root) {
        return Ok(None);
    }
    let lang = text_at(root, Attribute::Lang);
    let xml = text_at(root, Attribute::XmlLang);
    let text = both_lines(alloc, lang, xml)?;
    Ok(Some(finding(lang, xml).verdict(alloc, &text)?))
}

impl Rule for LanguagesMatch {
    ghost means = { languages_match };

    ghost described = { languages_match_info };

    fn info(&self) -> RuleInfo {
        Self::INFO
    }

    fn judge(&self, alloc: Global, tree: &Tree, n: NodeId) -> Result<Option<Verdict>, OutOfMemory> {
        match page_root(tree, n) {
            Some(root) => verdict(alloc, root),
            None => Ok(None),
        }
    }

    #[tactic(auto, using(crate::proofs::Local::languages_local))]
    fn law_of_locality(&self) {}
}
