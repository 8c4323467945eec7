ghost use Rattle.std.specs.Prelude.{◌≡◌};
ghost use Rattle.acc_tree.specs.Seen.{seen_row};
ghost use Rattle.acc_tree.specs.Inclusion.{is_hidden, exposed, included};

use crate::attributes::{Attribute, is_word_at};
use crate::lent::Above;
use crate::roles::decorative_at;
use aria_tables::AriaAttr;
use snap_tree::Row;

/// Whether the node itself has aria-hidden with the value `true`.
pub fn is_hidden(row: &Row) -> bool
    ensures { result ≡ is_hidden (seen_row row.now) }
{
    is_word_at(row, Attribute::Aria(AriaAttr::Hidden), "true")
}

/// Whether a row is exposed, given what is above it: it is rendered and visible, and neither it nor an
/// ancestor has aria-hidden with the value `true`.
pub fn exposed_at(above: &Above<'_>, row: &Row) -> bool
    ensures { result ≡ exposed above.now (seen_row row.now) }
{
    row.facts.rendered && row.facts.visible && !above.hidden && !is_hidden(row)
}

/// Whether a row is in the accessibility tree, given what is above it: it is exposed, and its role is
/// neither none nor presentation.
pub fn included_at(above: &Above<'_>, row: &Row) -> bool
    ensures { result ≡ included above.now (seen_row row.now) }
{
    exposed_at(above, row) && !decorative_at(above, row)
}
