ghost use Rattle.std.specs.Prelude.{◌≡◌, [], ◌∷◌, filter, MatchOption};
ghost use Rattle.std.specs.Iterator.{YieldsFirstRef, item_count};
ghost use Rattle.acc_tree.specs.Attributes.{is_aria};
ghost use Rattle.acc_tree.specs.Seen.{seen_row, aria_attrs};

use snap_tree::{Attr, Row};
use std::marker::Model;

const PREFIX: usize = 5;

/// Whether a name begins `aria-`, which compares ASCII case-insensitively.
fn is_aria(name: &str) -> bool
    ensures { result ≡ is_aria name.now }
{
    match name.as_bytes().split_at_checked(PREFIX) {
        Some((prefix, _)) => prefix.eq_ignore_ascii_case(b"aria-"),
        None => false,
    }
}

// The first attribute whose name begins `aria-`, and those after it.
fn first_aria(attrs: &[Attr]) -> Option<(&Attr, &[Attr])>
    ensures { MatchOption result (filter (λ a. is_aria a.name) attrs.now ≡ [])
        (λ found. filter (λ a. is_aria a.name) attrs.now
        ≡ found.0.now ∷ filter (λ a. is_aria a.name) found.1.now) }
{
    let mut rest = attrs;
    while let Some((attr, later)) = rest.split_first() {
        if is_aria(attr.name.as_str()) {
            return Some((attr, later));
        }
        rest = later;
    }
    None
}

/// The attributes of a row whose names begin `aria-`, in their order and as sent. Contracts see the list
/// of those that are left.
#[derive(Drop)]
pub struct AriaAttrs<'a> {
    rest: &'a [Attr],
}

impl<'a> Model for AriaAttrs<'a> {
    ghost use Rattle.std.specs.Prelude.{List, filter};
    ghost use Rattle.snap_tree.specs.declared.row.Attr.{Attr};
    ghost use Rattle.acc_tree.specs.Attributes.{is_aria};

    ghost Value = { List Attr };

    ghost view = { λ attrs. filter (λ a. is_aria a.name) attrs.rest.now };
}

/// The attributes of a row whose names begin `aria-`, in their order; none for a text.
#[tactic(auto, using(crate::proofs::Seeing::aria_attrs_seen))]
pub fn aria_attrs(row: &Row) -> AriaAttrs<'_>
    ensures { result ≡ aria_attrs (seen_row row.now) }
{
    AriaAttrs { rest: row.attrs() }
}

impl<'a> Iterator for AriaAttrs<'a> {
    type Item = &'a Attr;

    ghost next_gives = { YieldsFirstRef (λ s. s) };

    ghost remaining = { item_count (λ s. s) };

    fn next(&mut self) -> Option<&'a Attr> {
        let (attr, later) = first_aria(self.rest)?;
        self.rest = later;
        Some(attr)
    }
}
