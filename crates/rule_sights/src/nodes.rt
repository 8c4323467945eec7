ghost use Rattle.std.specs.Prelude.{◌≡◌, option_map};
ghost use Rattle.std.specs.Option.{option_copied};
ghost use Rattle.snap_tree.specs.Rows.{is_html};
ghost use Rattle.acc_tree.specs.Seen.{seen_row, seen, has};
ghost use Rattle.acc_tree.specs.Sights.{seen_sight};
ghost use Rattle.rule_sights.specs.Nodes.{sight_where, sight_as, row_of};

use acc_tree::{Attribute, Sight, has, role, sight_of};
use aria_tables::Role;
use snap_tree::{NodeId, Row, Tree};

/// The sight of a node that has an attribute, be it blank. Where the node hasn't got it, nothing else of
/// the page is looked at. None also for a number that the tree doesn't hold.
#[tactic(auto, using(crate::proofs::RowFirst::no_node, crate::proofs::RowFirst::has_not, crate::proofs::RowFirst::has_it))]
pub fn sight_with(tree: &Tree, n: NodeId, name: Attribute) -> Option<Sight<'_>>
    ensures { option_map seen_sight result ≡ sight_where (has name) (seen tree.now.trees) n }
{
    match tree.node(n) {
        Some(row) if has(row, name) => sight_of(tree, n),
        _ => None,
    }
}

/// The sight of an HTML element of this tag, which compares ASCII case-insensitively. Of a node of
/// another tag nothing else is looked at. None also for a number that the tree doesn't hold.
#[tactic(auto, using(crate::proofs::RowFirst::no_node, crate::proofs::TagFirst::is_other, crate::proofs::TagFirst::is_that))]
pub fn sight_of_html<'a>(tree: &'a Tree, n: NodeId, tag: &str) -> Option<Sight<'a>>
    ensures { option_map seen_sight result ≡ sight_where (is_html tag.now) (seen tree.now.trees) n }
{
    match tree.node(n) {
        Some(row) if row.is_html(tag) => sight_of(tree, n),
        _ => None,
    }
}

/// The sight of a node whose role is one of these. For most tags the row alone tells the role, and where
/// it is another one, nothing else of the page is looked at. None also for a number that the tree
/// doesn't hold.
#[tactic(auto, using(crate::proofs::RoleFirst::no_role, crate::proofs::RoleFirst::is_not, crate::proofs::RoleFirst::is_it))]
pub fn sight_as<'a>(tree: &'a Tree, n: NodeId, those: &[Role]) -> Option<Sight<'a>>
    ensures { option_map seen_sight result ≡ sight_as those.now (seen tree.now.trees) n }
{
    match role(tree, n) {
        Some(role) if role.is_one_of(those) => sight_of(tree, n),
        _ => None,
    }
}

/// The row of a number; None exactly where the tree doesn't hold it.
#[tactic(auto, using(crate::proofs::RowFirst::row_seen))]
pub fn row_of(tree: &Tree, n: NodeId) -> Option<&Row>
    ensures { option_map seen_row (option_copied result) ≡ row_of tree.now.trees n }
{
    tree.node(n)
}
