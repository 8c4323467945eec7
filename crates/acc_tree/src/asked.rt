ghost use Rattle.std.specs.Prelude.{◌≡◌, option_map};
ghost use Rattle.std.specs.Option.{option_copied};
ghost use Rattle.acc_tree.specs.declared.tags.Tag.TheVariants.{Li, Td};
ghost use Rattle.acc_tree.specs.Frames.{table_at};
ghost use Rattle.acc_tree.specs.Roles.{asks_above, tag_role};
ghost use Rattle.acc_tree.specs.Seen.{seen_row, seen};
ghost use Rattle.acc_tree.specs.Sights.{above_children};

use crate::frames::{holds_items, is_table};
use crate::lent::Above;
use crate::roles::tag_role;
use crate::sights::{above_children, law_of_climbing};
use crate::tags::{Tag, html_tag};
use aria_tables::Role;
use snap_tree::{NodeId, Row, Tree};

// Whether the parent is an HTML ul, ol or menu, given its number. Of those above it nothing is asked.
fn is_in_list(tree: &Tree, parent: Option<NodeId>) -> bool
    ensures { result ≡ (above_children (seen tree.now.trees) parent).in_list }
{
    let Some(n) = parent else {
        return false;
    };
    law_of_climbing(tree);
    match tree.node(n) {
        Some(row) => holds_items(html_tag(row)),
        None => false,
    }
}

// The nearest HTML `table` above a node, given the parent's number. It walks up to that table, and asks for
// nothing but tags.
fn nearest_table(tree: &Tree, parent: Option<NodeId>) -> Option<&Row>
    ensures { option_map (λ row. table_at (seen_row row)) (option_copied result) ≡ (above_children (seen tree.now.trees) parent).table }
{
    let Some(n) = parent else {
        return None;
    };
    law_of_climbing(tree);
    match tree.node(n) {
        Some(row) => {
            if is_table(html_tag(row)) {
                Some(row)
            } else {
                nearest_table(tree, row.parent)
            }
        }
        None => None,
    }
}

#[tactic(auto, using(crate::proofs::Asking::asks_list))]
fn item_role_in(tree: &Tree, row: &Row) -> Option<Role>
    ensures { result ≡ tag_role (above_children (seen tree.now.trees) row.now.parent) (seen_row row.now) Li }
{
    let above = Above::in_list(is_in_list(tree, row.parent));
    tag_role(&above, row, Tag::Li)
}

#[tactic(auto, using(crate::proofs::Asking::asks_table))]
fn cell_role_in(tree: &Tree, row: &Row) -> Option<Role>
    ensures { result ≡ tag_role (above_children (seen tree.now.trees) row.now.parent) (seen_row row.now) Td }
{
    let above = Above::in_table(nearest_table(tree, row.parent));
    tag_role(&above, row, Tag::Td)
}

fn asks_above(tag: Tag) -> bool
    ensures { result ≡ asks_above tag }
{
    matches!(tag, Tag::Footer | Tag::Header | Tag::Li | Tag::Td)
}

#[tactic(auto, using(crate::proofs::Asking::not_asked))]
fn other_role_in(tree: &Tree, row: &Row, tag: Tag) -> Option<Role>
    ensures { result ≡ tag_role (above_children (seen tree.now.trees) row.now.parent)
        (seen_row row.now) tag }
{
    if asks_above(tag) {
        tag_role(&above_children(tree, row.parent), row, tag)
    } else {
        tag_role(&Above::nothing(), row, tag)
    }
}

/// The implicit role of an HTML element of this tag in its tree. It asks of what is above the element no more
/// than the tag wants to know, and for most tags nothing.
pub(crate) fn tag_role_in(tree: &Tree, row: &Row, tag: Tag) -> Option<Role>
    ensures { result ≡ tag_role (above_children (seen tree.now.trees) row.now.parent)
        (seen_row row.now) tag }
{
    match tag {
        Tag::Li => item_role_in(tree, row),
        Tag::Td => cell_role_in(tree, row),
        _ => other_role_in(tree, row, tag),
    }
}
