ghost use Rattle.std.specs.Prelude.{◌≡◌, map, IfOk};
ghost use Rattle.snap_tree.specs.Trees.{rows_of, Document};
ghost use Rattle.acc_tree.specs.Seen.{seen_row, seen};
ghost use Rattle.snap_tree.specs.declared.row.NodeId.{NodeId};
ghost use Rattle.rule_sights.specs.Targets.{JudgesRows};
ghost use Rattle.rules_page.specs.Refresh.{after_white, is_over, is_over_after_digits, ends_time, is_time, seconds, asks_to_refresh, refresh_time, refreshes, first_refresh, is_number, refresh_finding, refresh_verdict, page_has_no_delay, page_has_no_delay_info, page_has_no_delay_target};

use crate::digits::{after_digits, begins_with_digit, number_at_start};
use acc_tree::{Attribute, attr, is_word_at};
use rule_core::{Class, Finding, Reason, Rule, RuleInfo, RuleNo, Verdict};
use rule_sights::row_of;
use snap_tree::{NodeId, OutOfMemory, Row, Tree};
use std::alloc::Global;

/// ACT rule bc659a, Meta element has no refresh delay
/// (<https://www.w3.org/WAI/standards-guidelines/act/rules/bc659a/>). Its target is the first HTML `meta`
/// with http-equiv `refresh` whose content reads as a time. It fails where the time is from 1 to 72,000
/// seconds, which is twenty hours. The evidence is the content.
#[derive(Clone, Copy, Debug, PartialEq, Eq)]
pub struct PageHasNoDelay;

impl PageHasNoDelay {
    /// Its number.
    pub const NO: u16 = 7;

    /// What the rule says of itself.
    pub const INFO: RuleInfo = RuleInfo {
        no: RuleNo(Self::NO),
        id: *b"bc659a",
        applies: Class::Metas,
        expects: Class::SelfOnly,
        inputs: [0; 4],
    };

    /// The law of its targets: on each page it has a verdict exactly where the node is one. It does nothing: the clause
    /// is what it is for.
    #[tactic(auto, using(crate::proofs::Local::refreshing))]
    pub fn law_of_targets()
        ensures { (page : Document) (n : NodeId) → JudgesRows page_has_no_delay (page_has_no_delay_target (rows_of (seen page.trees))) page n }
    {}
}

fn after_white(text: &[u8]) -> &[u8]
    ensures { result.now ≡ after_white text.now }
{
    let mut rest = text;
    while let [byte, later @ ..] = rest {
        if !byte.is_ascii_whitespace() {
            return rest;
        }
        rest = later;
    }
    rest
}

fn is_over(text: &[u8]) -> bool
    ensures { result ≡ is_over text.now }
{
    match text {
        [byte, ..] => (*byte == b';') | (*byte == b',') | byte.is_ascii_whitespace(),
        [] => true,
    }
}

fn is_over_after_digits(text: &[u8]) -> bool
    ensures { result ≡ is_over_after_digits text.now }
{
    begins_with_digit(text) && is_over(after_digits(text))
}

fn ends_time(text: &[u8]) -> bool
    ensures { result ≡ ends_time text.now }
{
    match text {
        [b'.', digits @ ..] => is_over_after_digits(digits),
        _ => is_over(text),
    }
}

fn is_time(text: &[u8]) -> bool
    ensures { result ≡ is_time text.now }
{
    begins_with_digit(text) && ends_time(after_digits(text))
}

/// The time in seconds that a content asks for; None where it doesn't read.
fn seconds(content: &[u8]) -> Option<u64>
    ensures { result ≡ seconds content.now }
{
    let text = after_white(content);
    if is_time(text) {
        Some(number_at_start(text))
    } else {
        None
    }
}

#[tactic(auto, using(rule_sights::proofs::Seeing::html_seen))]
fn asks_to_refresh(row: &Row) -> bool
    ensures { result ≡ asks_to_refresh (seen_row row.now) }
{
    row.is_html("meta") && is_word_at(row, Attribute::HttpEquiv, "refresh")
}

/// The time in seconds after which a `meta` refreshes its page; None where the row is no such `meta`, or its
/// content doesn't read. A time past 1,000,000,000 counts as that.
pub fn refresh_time(row: &Row) -> Option<u64>
    ensures { result ≡ refresh_time (seen_row row.now) }
{
    if !asks_to_refresh(row) {
        return None;
    }
    match attr(row, Attribute::Content) {
        Some(content) => seconds(content.as_str().as_bytes()),
        None => None,
    }
}

fn refreshes(row: &Row) -> bool
    ensures { result ≡ refreshes (seen_row row.now) }
{
    refresh_time(row).is_some()
}

fn first_refresh(rows: &[Row]) -> Option<NodeId>
    ensures { result ≡ first_refresh (map seen_row rows.now) }
{
    for row in rows {
        if refreshes(row) {
            return Some(row.id);
        }
    }
    None
}

/// Whether the node is the first `meta` that refreshes the page.
#[tactic(auto, using(crate::proofs::Seeing::rows_of_seen))]
pub fn is_first_refresh(tree: &Tree, n: NodeId) -> bool
    ensures { result ≡ is_number n (first_refresh (rows_of (seen tree.now.trees))) }
{
    match first_refresh(tree.rows()) {
        Some(first) => first.0 == n.0,
        None => false,
    }
}

fn finding(time: u64) -> Finding
    ensures { result ≡ refresh_finding time }
{
    if 0 < time && time < 72_001 {
        Finding::failed(Reason::Delay)
    } else {
        Finding::met()
    }
}

fn verdict(alloc: Global, tree: &Tree, row: &Row) -> Result<Option<Verdict>, OutOfMemory>
    ensures { IfOk result (λ verdict. verdict ≡ refresh_verdict refresh_finding (rows_of (seen tree.now.trees)) (seen_row row.now)) }
{
    let Some(time) = refresh_time(row) else {
        return Ok(None);
    };
    if !is_first_refresh(tree, row.id) {
        return Ok(None);
    }
    match attr(row, Attribute::Content) {
        Some(content) => Ok(Some(finding(time).verdict(alloc, content)?)),
        None => Ok(None),
    }
}

impl Rule for PageHasNoDelay {
    ghost means = { page_has_no_delay };

    ghost described = { page_has_no_delay_info };

    fn info(&self) -> RuleInfo {
        Self::INFO
    }

    fn judge(&self, alloc: Global, tree: &Tree, n: NodeId) -> Result<Option<Verdict>, OutOfMemory> {
        match row_of(tree, n) {
            Some(row) => verdict(alloc, tree, row),
            None => Ok(None),
        }
    }

    #[tactic(auto, using(crate::proofs::Local::delay_local))]
    fn law_of_locality(&self) {}
}
