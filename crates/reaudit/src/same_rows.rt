ghost use Rattle.std.specs.Prelude.{◌≡◌};
ghost use Rattle.std.specs.Cmp.Lexicographic.{pointwise};
ghost use Rattle.page_keys.specs.Same.{same_attr, same_facts};
ghost use Rattle.reaudit.specs.SameRows.{same_body, same_row, same_rows};

use snap_tree::{Attr, Body, Facts, Row};

fn same_attr(a: &Attr, b: &Attr) -> bool
    ensures { result ≡ same_attr a.now b.now }
{
    a.name.as_str() == b.name.as_str() && a.value.as_str() == b.value.as_str()
}

fn same_attrs(a: &[Attr], b: &[Attr]) -> bool
    ensures { result ≡ pointwise same_attr a.now b.now }
{
    let mut left = a;
    let mut right = b;
    loop {
        match (left.split_first(), right.split_first()) {
            (None, None) => return true,
            (Some((one, more)), Some((other, others))) => {
                if !same_attr(one, other) {
                    return false;
                }
                left = more;
                right = others;
            }
            _ => return false,
        }
    }
}

fn same_facts(a: Facts, b: Facts) -> bool
    ensures { result ≡ same_facts a b }
{
    a.rendered == b.rendered
        && (a.visible == b.visible && (a.focusable == b.focusable && a.tabbable == b.tabbable))
}

fn same_body(a: &Body, b: &Body) -> bool
    ensures { result ≡ same_body a.now b.now }
{
    match (a, b) {
        (
            Body::Element { space, tag, attrs },
            Body::Element {
                space: other_space,
                tag: other_tag,
                attrs: others,
            },
        ) => {
            *space == *other_space
                && (tag.as_str() == other_tag.as_str()
                    && same_attrs(attrs.as_slice(), others.as_slice()))
        }
        (Body::Words { text }, Body::Words { text: other }) => text.as_str() == other.as_str(),
        _ => false,
    }
}

fn same_row(a: &Row, b: &Row) -> bool
    ensures { result ≡ same_row a.now b.now }
{
    a.id.0 == b.id.0
        && (a.parent == b.parent
            && (same_facts(a.facts, b.facts) && same_body(a.body.get(), b.body.get())))
}

/// Whether two pages have the same rows.
pub(crate) fn same_rows(old: &[Row], new: &[Row]) -> bool
    ensures { result ≡ same_rows old.now new.now }
{
    let mut left = old;
    let mut right = new;
    loop {
        match (left.split_first(), right.split_first()) {
            (None, None) => return true,
            (Some((one, more)), Some((other, others))) => {
                if !same_row(one, other) {
                    return false;
                }
                left = more;
                right = others;
            }
            _ => return false,
        }
    }
}
