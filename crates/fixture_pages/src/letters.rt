ghost use Rattle.std.specs.Prelude.{◌≡◌};
ghost use Rattle.fixture_pages.specs.Letters.{has_letter, facts_in, named};

use snap_tree::{Facts, NodeId};

fn has_letter(letter: u8, letters: &str) -> bool
    ensures { result ≡ has_letter letter letters.now }
{
    letters.as_bytes().contains(&letter)
}

/// The facts whose letters are in a text: r, v, f and t.
pub fn facts(letters: &str) -> Facts
    ensures { result ≡ facts_in letters.now }
{
    Facts {
        rendered: has_letter(b'r', letters),
        visible: has_letter(b'v', letters),
        focusable: has_letter(b'f', letters),
        tabbable: has_letter(b't', letters),
    }
}

/// A parent by its number, where it isn't 0.
pub(crate) fn named(number: u32) -> Option<NodeId>
    ensures { result ≡ named number }
{
    if number == 0 {
        None
    } else {
        Some(NodeId(number))
    }
}
