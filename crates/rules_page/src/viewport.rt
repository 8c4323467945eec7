ghost use Rattle.std.specs.Prelude.{◌≡◌, ◌<◌, IfOk};
ghost use Rattle.acc_tree.specs.Numbers.{is_digits};
ghost use Rattle.acc_tree.specs.Seen.{seen_row};
ghost use Rattle.snap_tree.specs.Trees.{Document};
ghost use Rattle.snap_tree.specs.declared.row.NodeId.{NodeId};
ghost use Rattle.rule_sights.specs.Targets.{JudgesRows};
ghost use Rattle.rules_page.specs.Viewport.{fraction, with_fraction, thousandths, split_scale, scale, is_below_two, key_of, limits, pair_limits, part_limits, pieces, last_limits, content_limits, is_limited, viewport_finding, zoom_verdict, content_verdict, is_viewport, viewport_verdict, viewport_allows_zoom, viewport_allows_zoom_info, viewport_allows_zoom_target};

use crate::digits::{GREATEST, digit};
use acc_tree::{Attribute, attr, is_word_at, whole_number};
use rule_core::{Class, Finding, Reason, Rule, RuleInfo, RuleNo, Verdict};
use rule_sights::row_of;
use snap_tree::{NodeId, OutOfMemory, Row, Text, Tree, same_folded};
use std::alloc::Global;

/// ACT rule b4f0c3, Meta viewport allows for zoom
/// (<https://www.w3.org/WAI/standards-guidelines/act/rules/b4f0c3/>). Its target is an HTML `meta` of name
/// `viewport` whose content has the key maximum-scale or user-scalable. It fails where user-scalable is
/// `no`, or maximum-scale is below 2. The evidence is the content.
#[derive(Clone, Copy, Debug, PartialEq, Eq)]
pub struct ViewportAllowsZoom;

impl ViewportAllowsZoom {
    /// Its number.
    pub const NO: u16 = 6;

    /// What the rule says of itself.
    pub const INFO: RuleInfo = RuleInfo {
        no: RuleNo(Self::NO),
        id: *b"b4f0c3",
        applies: Class::SelfOnly,
        expects: Class::SelfOnly,
        inputs: [0; 4],
    };

    /// The law of its targets: on each page it has a verdict exactly where the node is one. It does nothing: the clause
    /// is what it is for.
    #[tactic(auto, using(crate::proofs::Local::viewports))]
    pub fn law_of_targets()
        ensures { (page : Document) (n : NodeId) → JudgesRows viewport_allows_zoom viewport_allows_zoom_target page n }
    {}
}

/// A key by which a viewport can keep a page from being zoomed.
#[derive(Clone, Copy)]
enum Limit {
    UserScalable,
    MaximumScale,
}

// The thousandths that the digits behind a point write; those past the third are dropped.
fn fraction(digits: &[u8]) -> u64
    ensures { result ≡ fraction digits.now }
{
    match digits {
        [] => 0,
        [a] => 100 * digit(*a),
        [a, b] => 100 * digit(*a) + 10 * digit(*b),
        [a, b, c, ..] => 100 * digit(*a) + 10 * digit(*b) + digit(*c),
    }
}

#[tactic(auto, using(crate::proofs::Saturating::scaled))]
fn with_fraction(thousandths: u64, whole: u64) -> u64
    requires { thousandths < 1000000 }
    ensures { result ≡ with_fraction thousandths whole }
{
    (whole.min(1_000_000) * 1000 + thousandths).min(GREATEST)
}

fn thousandths(whole: &str, more: u64) -> Option<u64>
    requires { more < 1000000 }
    ensures { result ≡ thousandths whole.now more }
{
    match whole_number(whole) {
        Some(whole) => Some(with_fraction(more, whole)),
        None => None,
    }
}

fn is_digits(text: &str) -> bool
    ensures { result ≡ is_digits text.now }
{
    whole_number(text).is_some()
}

fn split_scale(whole: &str, digits: &str) -> Option<u64>
    ensures { result ≡ split_scale whole.now digits.now }
{
    if is_digits(digits) {
        thousandths(whole, fraction(digits.as_bytes()))
    } else {
        None
    }
}

fn scale(value: &str) -> Option<u64>
    ensures { result ≡ scale value.now }
{
    match value.split_once('.') {
        Some((whole, digits)) => split_scale(whole, digits),
        None => thousandths(value, 0),
    }
}

fn is_below_two(value: &str) -> bool
    ensures { result ≡ is_below_two value.now }
{
    match scale(value) {
        Some(scale) => scale < 2000,
        None => false,
    }
}

impl Limit {
    fn key(self) -> &'static str
        ensures { result.now ≡ key_of self }
    {
        match self {
            Limit::UserScalable => "user-scalable",
            Limit::MaximumScale => "maximum-scale",
        }
    }

    fn limits(self, value: &str) -> bool
        ensures { result ≡ limits self value.now }
    {
        match self {
            Limit::UserScalable => same_folded(value, "no"),
            Limit::MaximumScale => is_below_two(value),
        }
    }

    fn in_pair(self, key: &str, value: &str) -> Option<bool>
        ensures { result ≡ pair_limits self key.now value.now }
    {
        if same_folded(key.trim(), self.key()) {
            Some(self.limits(value.trim()))
        } else {
            None
        }
    }

    fn in_part(self, part: &str) -> Option<bool>
        ensures { result ≡ part_limits self part.now }
    {
        match part.split_once('=') {
            Some((key, value)) => self.in_pair(key, value),
            None => None,
        }
    }

    // What the last pair of the key says between semicolons, where this was said earlier.
    #[tactic(auto, using(crate::proofs::Cutting::cut_at, crate::proofs::Cutting::uncut))]
    fn between_semicolons(self, text: &str, earlier: Option<bool>) -> Option<bool>
        ensures { result ≡ last_limits self earlier (pieces 59 text.now) }
    {
        let mut found = earlier;
        let mut rest = text;
        while let Some((part, later)) = rest.split_once(';') {
            found = self.in_part(part).or(found);
            rest = later;
        }
        self.in_part(rest).or(found)
    }

    /// Whether the content limits zooming by this key, of which the last pair counts; None where the key
    /// isn't there.
    #[tactic(auto, using(crate::proofs::Cutting::cut_at, crate::proofs::Cutting::uncut, crate::proofs::Cutting::last_of_both))]
    fn in_content(self, content: &str) -> Option<bool>
        ensures { result ≡ content_limits self content.now }
    {
        let mut found = None;
        let mut rest = content;
        while let Some((part, later)) = rest.split_once(',') {
            found = self.between_semicolons(part, found);
            rest = later;
        }
        self.between_semicolons(rest, found)
    }
}

fn is_limited(said: Option<bool>) -> bool
    ensures { result ≡ is_limited said }
{
    match said {
        Some(limited) => limited,
        None => false,
    }
}

fn finding(scalable: Option<bool>, scale: Option<bool>) -> Finding
    ensures { result ≡ viewport_finding scalable scale }
{
    if is_limited(scalable) {
        Finding::failed(Reason::NoZoom)
    } else if is_limited(scale) {
        Finding::failed(Reason::SmallScale)
    } else {
        Finding::met()
    }
}

fn zoom_verdict(
    alloc: Global,
    content: &Text,
    scalable: Option<bool>,
    scale: Option<bool>,
) -> Result<Option<Verdict>, OutOfMemory>
    ensures { IfOk result (λ verdict. verdict ≡ zoom_verdict content.now scalable scale) }
{
    match (scalable, scale) {
        (None, None) => Ok(None),
        _ => Ok(Some(finding(scalable, scale).verdict(alloc, content)?)),
    }
}

fn content_verdict(alloc: Global, content: &Text) -> Result<Option<Verdict>, OutOfMemory>
    ensures { IfOk result (λ verdict. verdict ≡ content_verdict content.now) }
{
    let scalable = Limit::UserScalable.in_content(content.as_str());
    let scale = Limit::MaximumScale.in_content(content.as_str());
    zoom_verdict(alloc, content, scalable, scale)
}

#[tactic(auto, using(rule_sights::proofs::Seeing::html_seen))]
fn is_viewport(row: &Row) -> bool
    ensures { result ≡ is_viewport (seen_row row.now) }
{
    row.is_html("meta") && is_word_at(row, Attribute::Name, "viewport")
}

fn verdict(alloc: Global, row: &Row) -> Result<Option<Verdict>, OutOfMemory>
    ensures { IfOk result (λ verdict. verdict ≡ viewport_verdict (seen_row row.now)) }
{
    if !is_viewport(row) {
        return Ok(None);
    }
    match attr(row, Attribute::Content) {
        Some(content) => content_verdict(alloc, content),
        None => Ok(None),
    }
}

impl Rule for ViewportAllowsZoom {
    ghost means = { viewport_allows_zoom };

    ghost described = { viewport_allows_zoom_info };

    fn info(&self) -> RuleInfo {
        Self::INFO
    }

    fn judge(&self, alloc: Global, tree: &Tree, n: NodeId) -> Result<Option<Verdict>, OutOfMemory> {
        match row_of(tree, n) {
            Some(row) => verdict(alloc, row),
            None => Ok(None),
        }
    }

    #[tactic(auto, using(crate::proofs::Local::viewport_local))]
    fn law_of_locality(&self) {}
}
