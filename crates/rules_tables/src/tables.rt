ghost use Rattle.std.specs.Prelude.{◌≡◌, codes, option_map};
ghost use Rattle.snap_tree.specs.Rows.{is_html};
ghost use Rattle.acc_tree.specs.Seen.{seen_row, seen};
ghost use Rattle.rules_tables.specs.Tables.{is_table_role, in_table, below};

use acc_tree::Above;
use aria_tables::Role;
use snap_tree::{Branches, NodeId, Row, Tree};

fn is_table_role(role: Option<Role>) -> bool
    ensures { result ≡ is_table_role role }
{
    matches!(role, Some(Role::TableRole | Role::Grid))
}

/// Whether the nearest table has the role table or grid.
pub(crate) fn in_table(above: &Above) -> bool
    ensures { result ≡ in_table above.now }
{
    match above.table() {
        Some(table) => is_table_role(table.role),
        None => false,
    }
}

/// Whether the node is a `table`.
#[tactic(auto, using(crate::proofs::Seeing::html_seen))]
pub(crate) fn is_table(row: &Row) -> bool
    ensures { result ≡ is_html (codes "table") (seen_row row.now) }
{
    row.is_html("table")
}

/// What is below a number; None exactly where the tree doesn't hold it.
#[tactic(auto, using(crate::proofs::Seeing::below_seen))]
pub(crate) fn below(tree: &Tree, n: NodeId) -> Option<Branches<'_>>
    ensures { option_map seen result ≡ below (seen tree.now.trees) n }
{
    tree.below(n)
}
