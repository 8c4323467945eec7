ghost use Rattle.std.specs.Prelude.{◌≡◌, option_map};
ghost use Rattle.std.specs.Option.{option_copied};
ghost use Rattle.acc_tree.specs.Seen.{seen_row};
ghost use Rattle.rule_sights.specs.Pages.{is_page_root, page_root};

use crate::nodes::row_of;
use snap_tree::{NodeId, Row, Tree};

#[tactic(auto, using(crate::proofs::Seeing::html_seen))]
fn is_page_root(row: &Row) -> bool
    ensures { result ≡ is_page_root (seen_row row.now) }
{
    row.parent.is_none() && row.is_html("html")
}

/// The root of a page, where the node of the number is that: a page is a tree whose root is an HTML
/// element `html`. It looks at the node's row alone.
pub fn page_root(tree: &Tree, n: NodeId) -> Option<&Row>
    ensures { option_map seen_row (option_copied result) ≡ page_root tree.now.trees n }
{
    match row_of(tree, n) {
        Some(row) if is_page_root(row) => Some(row),
        _ => None,
    }
}
