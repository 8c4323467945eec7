ghost use Rattle.std.specs.Prelude.{◌≡◌};
ghost use Rattle.std.specs.List.{list_all};
ghost use Rattle.keep_core.specs.Names.{is_from, is_name, is_name_byte};

use crate::limits::MOST_NAME;
use snap_tree::Text;

/// Whether a text may name a site, a page or a user: 1 to 64 characters out of `a` to `z`, `0` to `9`, `.`,
/// `_` and `-`.
pub fn is_name(text: &Text) -> bool
    ensures { result ≡ is_name text.now }
{
    let bytes = text.as_str().as_bytes();
    is_name_length(bytes.len()) && are_name_bytes(bytes)
}

fn is_name_length(length: usize) -> bool
    ensures { result ≡ is_from 1 MOST_NAME length }
{
    1 <= length && length <= MOST_NAME
}

fn are_name_bytes(bytes: &[u8]) -> bool
    ensures { result ≡ list_all is_name_byte bytes.now }
{
    bytes.iter().all(|byte| is_name_byte(*byte))
}

fn is_name_byte(byte: u8) -> bool
    ensures { result ≡ is_name_byte byte }
{
    matches!(byte, b'a'..=b'z' | b'0'..=b'9' | b'.' | b'_' | b'-')
}
