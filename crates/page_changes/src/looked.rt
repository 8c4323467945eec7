ghost use Rattle.std.specs.Prelude.{◌≡◌, ◌||◌, [], ◌∷◌, ◌<◌, filter, length, MatchOption};
ghost use Rattle.std.specs.List.{list_any};
ghost use Rattle.std.specs.Str.{bytes_eq};
ghost use Rattle.std.specs.Cmp.Lexicographic.{pointwise};
ghost use Rattle.texts.specs.Words.{folded};
ghost use Rattle.acc_tree.specs.Attributes.{is_aria, is_looked_at};
ghost use Rattle.page_keys.specs.Same.{same_attr};

use snap_tree::{Attr, same_folded};

const PREFIX: usize = 5;

const NAMES: [&str; 25] = [
    "alt",
    "autocomplete",
    "colspan",
    "content",
    "disabled",
    "for",
    "headers",
    "href",
    "http-equiv",
    "id",
    "label",
    "lang",
    "list",
    "multiple",
    "name",
    "placeholder",
    "role",
    "rowspan",
    "scope",
    "selected",
    "size",
    "title",
    "type",
    "value",
    "xml:lang",
];

fn is_aria(name: &str) -> bool
    ensures { result ≡ is_aria name.now }
{
    match name.as_bytes().split_at_checked(PREFIX) {
        Some((prefix, _)) => prefix.eq_ignore_ascii_case(b"aria-"),
        None => false,
    }
}

/// Whether the name of some attribute begins `aria-`.
#[inline(always)]
pub(crate) fn has_aria(attrs: &[Attr]) -> bool
    ensures { result ≡ list_any (λ a. is_aria a.name) attrs.now }
{
    attrs.iter().any(|attr| is_aria(attr.name.as_str()))
}

fn is_among(name: &str, words: &[&str]) -> bool
    ensures { result ≡ list_any (λ w. bytes_eq (folded name.now) (folded w.now)) words.now }
{
    words.iter().any(|word| same_folded(name, word))
}

/// Whether an attribute of this name is looked at.
#[tactic(auto, unfolding(acc_tree::specs::Attributes::is_looked_at))]
fn is_looked_at(name: &str) -> bool
    ensures { result ≡ is_looked_at name.now }
{
    is_aria(name) || is_among(name, &NAMES)
}

// The first attribute that is looked at, and those after it.
fn next_looked(attrs: &[Attr]) -> Option<(&Attr, &[Attr])>
    ensures split { MatchOption result (filter (λ a. is_looked_at a.name) attrs.now ≡ [])
        (λ found. filter (λ a. is_looked_at a.name) attrs.now
        ≡ found.0.now ∷ filter (λ a. is_looked_at a.name) found.1.now) }
    ensures less { MatchOption result (Unit {0}) (λ found. length found.1.now < length attrs.now) }
{
    let mut rest = attrs;
    while let Some((attr, later)) = rest.split_first() {
        if is_looked_at(attr.name.as_str()) {
            return Some((attr, later));
        }
        rest = later;
    }
    None
}

#[inline(always)]
fn same_attr(a: &Attr, b: &Attr) -> bool
    ensures { result ≡ same_attr a.now b.now }
{
    a.name.as_str() == b.name.as_str() && a.value.as_str() == b.value.as_str()
}

// Whether two lists have the same attributes that are looked at, each found by its name.
#[inline(never)]
fn same_looked(a: &[Attr], b: &[Attr]) -> bool
    ensures { result ≡ pointwise same_attr (filter (λ a. is_looked_at a.name) a.now) (filter (λ a. is_looked_at a.name) b.now) }
{
    let mut left = a;
    let mut right = b;
    loop {
        match (next_looked(left), next_looked(right)) {
            (None, None) => return true,
            (Some((one, more)), Some((other, others))) => {
                if !same_attr(one, other) {
                    return false;
                }
                left = more;
                right = others;
            }
            _ => return false,
        }
    }
}

/// Whether two lists have the same attributes that are looked at, in the same order. As long as two attributes are the
/// same, it doesn't matter whether they are looked at.
#[inline(always)]
pub(crate) fn same_attrs(a: &[Attr], b: &[Attr]) -> bool
    ensures { result ≡ pointwise same_attr (filter (λ a. is_looked_at a.name) a.now) (filter (λ a. is_looked_at a.name) b.now) }
{
    let mut left = a;
    let mut right = b;
    loop {
        match (left.split_first(), right.split_first()) {
            (None, None) => return true,
            (Some((one, more)), Some((other, others))) => {
                if !same_attr(one, other) {
                    return same_looked(left, right);
                }
                left = more;
                right = others;
            }
            _ => return same_looked(left, right),
        }
    }
}
