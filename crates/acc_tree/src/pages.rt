ghost use Rattle.std.specs.Prelude.{◌≡◌};
ghost use Rattle.acc_tree.specs.Seen.{seen_row, seen};
ghost use Rattle.acc_tree.specs.Roles.{implicit, role_at, decorative};
ghost use Rattle.acc_tree.specs.Inclusion.{exposed, included};
ghost use Rattle.acc_tree.specs.Sights.{above_children};
ghost use Rattle.acc_tree.specs.Pages.{explicit_role, implicit_role, role, is_exposed, is_included, is_decorative};

use crate::asked::tag_role_in;
use crate::inclusion::is_hidden;
use crate::roles::{explicit_at, is_presentational};
use crate::sights::law_of_climbing;
use crate::tags::html_tag;
use snap_tree::{NodeId, Row, Tree};

// Whether one of the ancestors has aria-hidden with the value `true`, given the parent's number. It
// walks up, and asks nothing else of them.
fn is_hidden_above(tree: &Tree, parent: Option<NodeId>) -> bool
    ensures { result ≡ (above_children (seen tree.now.trees) parent).hidden }
{
    let Some(n) = parent else {
        return false;
    };
    law_of_climbing(tree);
    match tree.node(n) {
        Some(row) => is_hidden_above(tree, row.parent) | is_hidden(row),
        None => false,
    }
}

fn implicit_in(tree: &Tree, row: &Row) -> Option<aria_tables::Role>
    ensures { result ≡ implicit (above_children (seen tree.now.trees) row.now.parent)
        (seen_row row.now) }
{
    match html_tag(row) {
        Some(tag) => tag_role_in(tree, row, tag),
        None => None,
    }
}

fn role_in(tree: &Tree, row: &Row) -> Option<aria_tables::Role>
    ensures { result ≡ role_at (above_children (seen tree.now.trees) row.now.parent)
        (seen_row row.now) }
{
    match explicit_at(row) {
        Some(role) => Some(role),
        None => implicit_in(tree, row),
    }
}

fn decorative_in(tree: &Tree, row: &Row) -> bool
    ensures { result ≡ decorative (above_children (seen tree.now.trees) row.now.parent)
        (seen_row row.now) }
{
    match role_in(tree, row) {
        Some(role) => is_presentational(role),
        None => false,
    }
}

fn exposed_in(tree: &Tree, row: &Row) -> bool
    ensures { result ≡ exposed (above_children (seen tree.now.trees) row.now.parent)
        (seen_row row.now) }
{
    row.facts.rendered && row.facts.visible && !is_hidden(row) && !is_hidden_above(tree, row.parent)
}

fn included_in(tree: &Tree, row: &Row) -> bool
    ensures { result ≡ included (above_children (seen tree.now.trees) row.now.parent)
        (seen_row row.now) }
{
    exposed_in(tree, row) && !decorative_in(tree, row)
}

/// The explicit role of a node: the first known role that its attribute `role` names (WAI-ARIA 1.2,
/// "Role attribute"), but for one of none or presentation that conflicts ("Presentational Roles Conflict
/// Resolution"). None for a number that the tree doesn't hold.
pub fn explicit_role(tree: &Tree, n: NodeId) -> Option<aria_tables::Role>
    ensures { result ≡ explicit_role (seen tree.now.trees) n }
{
    law_of_climbing(tree);
    match tree.node(n) {
        Some(row) => explicit_at(row),
        None => None,
    }
}

/// The implicit role of a node, which HTML elements alone have (HTML Accessibility API Mappings). None
/// for a number that the tree doesn't hold.
pub fn implicit_role(tree: &Tree, n: NodeId) -> Option<aria_tables::Role>
    ensures { result ≡ implicit_role (seen tree.now.trees) n }
{
    law_of_climbing(tree);
    match tree.node(n) {
        Some(row) => implicit_in(tree, row),
        None => None,
    }
}

/// The role of a node: the explicit one, else the implicit one. None for a number that the tree doesn't
/// hold.
pub fn role(tree: &Tree, n: NodeId) -> Option<aria_tables::Role>
    ensures { result ≡ role (seen tree.now.trees) n }
{
    law_of_climbing(tree);
    match tree.node(n) {
        Some(row) => role_in(tree, row),
        None => None,
    }
}

/// Whether a node is exposed: rendered and visible, and neither it nor an ancestor has aria-hidden with
/// the value `true`. False for a number that the tree doesn't hold.
pub fn exposed(tree: &Tree, n: NodeId) -> bool
    ensures { result ≡ is_exposed (seen tree.now.trees) n }
{
    law_of_climbing(tree);
    match tree.node(n) {
        Some(row) => exposed_in(tree, row),
        None => false,
    }
}

/// Whether a node is in the accessibility tree (WAI-ARIA 1.2, "Including Elements in the Accessibility
/// Tree"): it is exposed, and its role is neither none nor presentation. False for a number that the
/// tree doesn't hold.
pub fn included(tree: &Tree, n: NodeId) -> bool
    ensures { result ≡ is_included (seen tree.now.trees) n }
{
    law_of_climbing(tree);
    match tree.node(n) {
        Some(row) => included_in(tree, row),
        None => false,
    }
}

/// Whether a node's role is none or presentation. False for a number that the tree doesn't hold.
pub fn decorative(tree: &Tree, n: NodeId) -> bool
    ensures { result ≡ is_decorative (seen tree.now.trees) n }
{
    law_of_climbing(tree);
    match tree.node(n) {
        Some(row) => decorative_in(tree, row),
        None => false,
    }
}
