ghost use Rattle.std.specs.Prelude.{◌≡◌, IfOk};
ghost use Rattle.std.specs.List.{list_any};
ghost use Rattle.snap_tree.specs.Trees.{rows_of, Document};
ghost use Rattle.acc_tree.specs.Seen.{seen_row, seen};
ghost use Rattle.acc_tree.specs.Sights.{seen_sight};
ghost use Rattle.snap_tree.specs.declared.row.NodeId.{NodeId};
ghost use Rattle.rule_sights.specs.Targets.{JudgesSights};
ghost use Rattle.rules_page.specs.LanguageOfParts.{is_html_part, is_shown_text, shows_text, is_part_target, part_verdict, language_of_part_is_known, language_of_part_is_known_info, language_of_part_is_known_target};

use crate::languages::tag_verdict;
use acc_tree::{Attribute, Sight, attr};
use rule_core::{Class, Rule, RuleInfo, RuleNo, Verdict};
use rule_sights::sight_with;
use snap_tree::{Body, Branches, List, NodeId, OutOfMemory, Row, Space, Text, Tree, blank};
use std::alloc::Global;

/// ACT rule de46e4, Element with lang attribute has valid language tag
/// (<https://www.w3.org/WAI/standards-guidelines/act/rules/de46e4/>). Its target is an HTML element other
/// than the root whose lang isn't blank and in which a text is rendered that isn't blank. It fails where
/// the primary subtag is unknown; a person has to judge one of three letters, unless the page's site accepts it.
/// The evidence is lang.
#[derive(Clone, Copy, Debug, PartialEq, Eq)]
pub struct LanguageOfPartIsKnown;

impl LanguageOfPartIsKnown {
    /// Its number.
    pub const NO: u16 = 5;

    /// What the rule says of itself.
    pub const INFO: RuleInfo = RuleInfo {
        no: RuleNo(Self::NO),
        id: *b"de46e4",
        applies: Class::Sub,
        expects: Class::SubLang,
        inputs: [0; 4],
    };

    /// The law of its targets: on each page it has a verdict exactly where the node is one. It does nothing: the clause
    /// is what it is for.
    #[tactic(auto, using(crate::proofs::Local::parts))]
    pub fn law_of_targets()
        ensures { (page : Document) (n : NodeId) → JudgesSights language_of_part_is_known language_of_part_is_known_target page n }
    {}
}

fn is_html_part(row: &Row) -> bool
    ensures { result ≡ is_html_part (seen_row row.now) }
{
    match row.body.get() {
        Body::Element {
            space: Space::Html,
            ..
        } => row.parent.is_some(),
        _ => false,
    }
}

fn is_shown_text(row: &Row) -> bool
    ensures { result ≡ is_shown_text row.now }
{
    match row.body.get() {
        Body::Words { text } => row.facts.rendered && !blank(text),
        Body::Element { .. } => false,
    }
}

fn any_shown_text(rows: &[Row]) -> bool
    ensures { result ≡ list_any is_shown_text rows.now }
{
    rows.iter().any(|row| is_shown_text(row))
}

// Whether a text is shown in these trees. It looks no further than the first.
#[tactic(auto, using(crate::proofs::Seeing::shown_seen))]
fn shows_text(trees: &Branches<'_>) -> bool
    ensures { result ≡ shows_text (seen trees.now) }
{
    any_shown_text(trees.rows())
}

fn is_target(sight: &Sight<'_>, lang: &Text) -> bool
    ensures { result ≡ is_part_target (seen_sight sight.now) lang.now }
{
    is_html_part(sight.row) && !blank(lang) && shows_text(&sight.below)
}

fn verdict(
    alloc: Global,
    accepted: &List<Text>,
    sight: &Sight<'_>,
) -> Result<Option<Verdict>, OutOfMemory>
    ensures { IfOk result (λ verdict. verdict ≡ part_verdict accepted.now (seen_sight sight.now)) }
{
    match attr(sight.row, Attribute::Lang) {
        Some(lang) if is_target(sight, lang) => Ok(Some(tag_verdict(alloc, accepted, lang)?)),
        _ => Ok(None),
    }
}

impl Rule for LanguageOfPartIsKnown {
    ghost means = { language_of_part_is_known };

    ghost described = { language_of_part_is_known_info };

    fn info(&self) -> RuleInfo {
        Self::INFO
    }

    fn judge(&self, alloc: Global, tree: &Tree, n: NodeId) -> Result<Option<Verdict>, OutOfMemory> {
        match sight_with(tree, n, Attribute::Lang) {
            Some(sight) => verdict(alloc, tree.langs(), &sight),
            None => Ok(None),
        }
    }

    #[tactic(auto, using(crate::proofs::Local::parts_local))]
    fn law_of_locality(&self) {}
}
