ghost use Rattle.std.specs.Prelude.{◌≡◌, ◌||◌};
ghost use Rattle.std.specs.List.{list_any};
ghost use Rattle.snap_tree.specs.Rows.{own_fault, has_long, has_double, has_empty, is_long, is_empty};
ghost use Rattle.texts.specs.Words.{same_folded};

use crate::fault::TreeFault;
use crate::row::{Attr, Body, Row};
use texts::{Text, same_folded};

/// How many attributes an element has at the most.
pub const MOST_ATTRS: usize = 64;

/// How many bytes a text, a tag, or a name or value of an attribute has at the most.
pub const MOST_BYTES: usize = 65_536;

fn is_long(text: &Text) -> bool
    ensures { result ≡ is_long text.now }
{
    text.len() > MOST_BYTES
}

fn any_long(attrs: &[Attr]) -> bool
    ensures { result ≡ list_any (λ a. is_long a.name || is_long a.value) attrs.now }
{
    attrs.iter().any(|a| is_long(&a.name) | is_long(&a.value))
}

fn has_long(body: &Body) -> bool
    ensures { result ≡ has_long body.now }
{
    match body {
        Body::Element { tag, attrs, .. } => { is_long(tag) | any_long(attrs.as_slice()) }
        Body::Words { text } => is_long(text),
    }
}

fn any_empty(attrs: &[Attr]) -> bool
    ensures { result ≡ list_any (λ a. is_empty a.name) attrs.now }
{
    attrs.iter().any(|a| a.name.is_empty())
}

fn any_same(attrs: &[Attr], name: &str) -> bool
    ensures { result ≡ list_any (λ a. same_folded name.now a.name) attrs.now }
{
    attrs.iter().any(|a| same_folded(name, a.name.as_str()))
}

fn has_double(attrs: &[Attr]) -> bool
    ensures { result ≡ has_double attrs.now }
{
    let mut rest = attrs;
    while let Some((attr, later)) = rest.split_first() {
        if any_same(later, attr.name.as_str()) {
            return true;
        }
        rest = later;
    }
    false
}

fn has_empty(body: &Body) -> bool
    ensures { result ≡ has_empty body.now }
{
    match body {
        Body::Element { tag, attrs, .. } => { tag.is_empty() | any_empty(attrs.as_slice()) }
        Body::Words { .. } => false,
    }
}

/// The first fault of a row by itself, in the order of the table of faults; None where it has none.
#[tactic(auto, unfolding(crate::specs::Rows::own_fault))]
pub fn own_fault(row: &Row) -> Option<TreeFault>
    ensures { result ≡ own_fault row.now }
{
    let node = row.id;
    if row.attrs().len() > MOST_ATTRS {
        return Some(TreeFault::TooManyAttrs { node });
    }
    if has_long(row.body.get()) {
        return Some(TreeFault::TextTooLong { node });
    }
    if has_double(row.attrs()) {
        return Some(TreeFault::DoubleAttr { node });
    }
    if row.id.0 == 0 || has_empty(row.body.get()) {
        return Some(TreeFault::EmptyName { node });
    }
    None
}
