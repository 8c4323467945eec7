ghost use Rattle.std.specs.Prelude.{◌≡◌, ◌==◌, ◌&&◌, not, IsTrue, IfOk};
ghost use Rattle.std.specs.Int.{is_in_range};
ghost use Rattle.texts.specs.Words.{tidy};

use snap_tree::{OutOfMemory, Text, tidy};
use std::alloc::Global;

// Whether a byte is a visible ASCII character or a space, and no space that follows another.
fn may_follow(before: u8, byte: u8) -> bool
    ensures { result ≡ (not (byte == 32 && before == 32) && is_in_range 32 126 byte) }
{
    !((byte == b' ') & (before == b' ')) & (byte >= b' ') & (byte <= b'~')
}

// Whether a text is tidy at a glance, as most are: visible ASCII characters with single spaces between
// them. False says nothing. It never stops early, so that many bytes can be looked at at once.
fn is_plainly_tidy(text: &str) -> bool
    ensures { IsTrue result → tidy text.now ≡ text.now }
{
    let mut rest = text.as_bytes();
    let mut plain = true;
    let mut before = b' ';
    while let [byte, later @ ..] = rest {
        plain = plain & may_follow(before, *byte);
        before = *byte;
        rest = later;
    }
    plain & (before != b' ')
}

// The text without the white space at its ends, which texts that stand apart have around them.
fn trimmed(text: &str) -> &str
    ensures { tidy result.now ≡ tidy text.now }
{
    text.trim()
}

/// The text, tidied. One that is tidy at a glance isn't written again, and one that is so between the white
/// space at its ends is copied.
pub(crate) fn tidied(alloc: Global, text: Text) -> Result<Text, OutOfMemory>
    ensures { IfOk result (λ t. t ≡ tidy text) }
{
    let inside = trimmed(text.as_str());
    if inside.len() < text.len() {
        if is_plainly_tidy(inside) {
            return Text::from_str(alloc, inside);
        }
    } else if is_plainly_tidy(text.as_str()) {
        return Ok(text);
    }
    tidy(alloc, &text)
}
