ghost use Rattle.std.specs.Prelude.{◌≡◌, ◌&&◌};
ghost use Rattle.std.specs.Option.{option_eq, option_copied};
ghost use Rattle.std.specs.Cmp.Lexicographic.{pointwise};
ghost use Rattle.std.specs.Str.{bytes_eq};
ghost use denote.Enum.Bare.{sameb};
ghost use Rattle.aria_tables.specs.contracts.role.Role as role;
ghost use Rattle.aria_tables.specs.declared.attr.AriaAttr.TheVariants as aria;
ghost use Rattle.snap_tree.specs.contracts.row.Space as space;
ghost use Rattle.acc_tree.specs.declared.attributes.Attribute.TheVariants as attribute;
ghost use Rattle.acc_tree.specs.Tags.{space_in, tag_in};
ghost use Rattle.acc_tree.specs.Seen.{seen_row, seen, attr};
ghost use Rattle.acc_tree.specs.Roles.{role_at};
ghost use Rattle.acc_tree.specs.Frames.{frame};
ghost use Rattle.page_keys.specs.Keys.{own, text_in, root_numbers};
ghost use Rattle.page_keys.specs.Same.{same_node, same_facts, same_frame, same_own};

use crate::looked::same_attrs;
use acc_tree::{Above, Attribute, attr, role_at};
use aria_tables::{AriaAttr, Role};
use snap_tree::{Body, Branches, Facts, Row, Text};

#[inline(always)]
fn same_text(a: Option<&Text>, b: Option<&Text>) -> bool
    ensures { result ≡ option_eq bytes_eq (option_copied a.entry) (option_copied b.entry) }
{
    match (a, b) {
        (Some(a), Some(b)) => a.as_str() == b.as_str(),
        (None, None) => true,
        _ => false,
    }
}

fn same_value(a: &Row, b: &Row, name: Attribute) -> bool
    ensures { result ≡ option_eq bytes_eq (attr name (seen_row a.now)) (attr name (seen_row b.now)) }
{
    same_text(attr(a, name), attr(b, name))
}

#[inline(always)]
fn same_space(a: &Row, b: &Row) -> bool
    ensures { result ≡ option_eq (sameb space.the_type) (space_in (seen_row a.now).body) (space_in (seen_row b.now).body) }
{
    match (a.body.get(), b.body.get()) {
        (Body::Element { space: one, .. }, Body::Element { space: other, .. }) => *one == *other,
        (Body::Words { .. }, Body::Words { .. }) => true,
        _ => false,
    }
}

#[inline(always)]
fn same_tag(a: &Row, b: &Row) -> bool
    ensures { result ≡ option_eq bytes_eq (tag_in (seen_row a.now).body) (tag_in (seen_row b.now).body) }
{
    match (a.body.get(), b.body.get()) {
        (Body::Element { tag: one, .. }, Body::Element { tag: other, .. }) => {
            one.as_str() == other.as_str()
        }
        (Body::Words { .. }, Body::Words { .. }) => true,
        _ => false,
    }
}

#[inline(always)]
fn same_words(a: &Row, b: &Row) -> bool
    ensures { result ≡ option_eq bytes_eq (text_in a.now.body) (text_in b.now.body) }
{
    match (a.body.get(), b.body.get()) {
        (Body::Words { text: one }, Body::Words { text: other }) => one.as_str() == other.as_str(),
        (Body::Element { .. }, Body::Element { .. }) => true,
        _ => false,
    }
}

#[inline(always)]
fn same_facts(a: Facts, b: Facts) -> bool
    ensures { result ≡ same_facts a b }
{
    a.rendered == b.rendered
        && (a.visible == b.visible && (a.focusable == b.focusable && a.tabbable == b.tabbable))
}

/// Whether two rows have one parent, name space and tag.
#[inline(always)]
pub(crate) fn same_shape(a: &Row, b: &Row) -> bool
    ensures { result ≡ (option_eq same_node a.now.parent b.now.parent && (option_eq (sameb space.the_type) (space_in (seen_row a.now).body) (space_in (seen_row b.now).body) && option_eq bytes_eq (tag_in (seen_row a.now).body) (tag_in (seen_row b.now).body))) }
{
    a.parent == b.parent && (same_space(a, b) && same_tag(a, b))
}

fn same_marks(a: &Row, b: &Row) -> bool
    ensures { result ≡ (option_eq bytes_eq (attr (attribute.Aria aria.Hidden) (seen_row a.now)) (attr (attribute.Aria aria.Hidden) (seen_row b.now))
        && (option_eq bytes_eq (attr attribute.Lang (seen_row a.now)) (attr attribute.Lang (seen_row b.now))
        && option_eq bytes_eq (attr attribute.Disabled (seen_row a.now)) (attr attribute.Disabled (seen_row b.now)))) }
{
    same_value(a, b, Attribute::Aria(AriaAttr::Hidden))
        && (same_value(a, b, Attribute::Lang) && same_value(a, b, Attribute::Disabled))
}

pub(crate) fn same_role(a: Option<Role>, b: Option<Role>) -> bool
    ensures { result ≡ option_eq (sameb role.the_type) a b }
{
    match (a, b) {
        (Some(one), Some(other)) => one == other,
        (None, None) => true,
        _ => false,
    }
}

fn same_roles(above: &Above<'_>, row: &Row, other_above: &Above<'_>, other: &Row) -> bool
    ensures { result ≡ option_eq (sameb role.the_type) (role_at above.now (seen_row row.now)) (role_at other_above.now (seen_row other.now)) }
{
    same_role(role_at(above, row), role_at(other_above, other))
}

/// Whether two rows have one frame, each under what is above it.
#[inline(never)]
pub(crate) fn same_frames(
    above: &Above<'_>,
    row: &Row,
    other_above: &Above<'_>,
    other: &Row,
) -> bool
    ensures { result ≡ same_frame (frame above.now (seen_row row.now)) (frame other_above.now (seen_row other.now)) }
{
    same_shape(row, other) && (same_marks(row, other) && same_roles(above, row, other_above, other))
}

/// Whether two rows have the same of their own.
#[inline(always)]
pub(crate) fn same_owns(a: &Row, b: &Row) -> bool
    ensures { result ≡ same_own (own (seen_row a.now)) (own (seen_row b.now)) }
{
    same_attrs(a.attrs(), b.attrs()) && (same_facts(a.facts, b.facts) && same_words(a, b))
}

fn same_rest(a: Branches<'_>, b: Branches<'_>) -> bool
    ensures { result ≡ pointwise same_node (root_numbers (seen a.entry)) (root_numbers (seen b.entry)) }
{
    let mut left = a;
    let mut right = b;
    loop {
        match (left.first(), right.first()) {
            (None, None) => return true,
            (Some(one), Some(other)) => {
                if one.row.id != other.row.id {
                    return false;
                }
                left = one.after;
                right = other.after;
            }
            _ => return false,
        }
    }
}

/// Whether trees have the same roots.
#[inline(always)]
pub(crate) fn same_roots(a: &Branches<'_>, b: &Branches<'_>) -> bool
    ensures { result ≡ pointwise same_node (root_numbers (seen a.now)) (root_numbers (seen b.now)) }
{
    match (a.first(), b.first()) {
        (Some(one), Some(other)) => {
            one.row.id == other.row.id && same_rest(one.after, other.after)
        }
        (None, None) => true,
        _ => false,
    }
}
