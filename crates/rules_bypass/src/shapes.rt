ghost use Rattle.std.specs.Prelude.{◌≡◌};
ghost use Rattle.acc_tree.specs.Seen.{seen_row};
ghost use Rattle.rules_bypass.specs.Shapes.{initial, heading_shape, landmark_shape, has_shape};

use acc_tree::{Attribute, has};
use snap_tree::{Body, Row};

// The first byte in lower case; 0 where there is none.
fn initial(text: &str) -> u8
    ensures { result ≡ initial text.now }
{
    match text.as_bytes() {
        [byte, ..] => byte.to_ascii_lowercase(),
        [] => 0,
    }
}

fn heading_shape(len: usize, letter: u8) -> bool
    ensures { result ≡ heading_shape len letter }
{
    len == 2 && letter == b'h'
}

fn landmark_shape(len: usize, letter: u8) -> bool
    ensures { result ≡ landmark_shape len letter }
{
    (letter == b'a' && len == 5)
        || (letter == b'f' && (len == 4 || len == 6))
        || (letter == b'h' && len == 6)
        || (letter == b'm' && len == 4)
        || (letter == b'n' && len == 3)
        || (letter == b's' && (len == 6 || len == 7))
}

/// Whether a node has the tag of a heading, as far as its length and first letter tell, or names a role.
pub(crate) fn seems_heading(row: &Row) -> bool
    ensures { result ≡ has_shape heading_shape (seen_row row.now) }
{
    match row.body.get() {
        Body::Element { tag, .. } => {
            heading_shape(tag.len(), initial(tag.as_str())) || has(row, Attribute::RoleAttr)
        }
        Body::Words { .. } => false,
    }
}

/// Whether a node has the tag of a landmark, as far as its length and first letter tell, or names a role.
pub(crate) fn seems_landmark(row: &Row) -> bool
    ensures { result ≡ has_shape landmark_shape (seen_row row.now) }
{
    match row.body.get() {
        Body::Element { tag, .. } => {
            landmark_shape(tag.len(), initial(tag.as_str())) || has(row, Attribute::RoleAttr)
        }
        Body::Words { .. } => false,
    }
}
