//! Cutting an object of three texts and a value.

ghost use Rattle.std.specs.Prelude.{◌≡◌, ◌≤◌, ◌&&◌, not, ◌==◌, nat_le, [], ◌∷◌, length, take, IfSome};
ghost use Rattle.json.specs.Token.{string};
ghost use Rattle.json.specs.Lex.{token, comma, colon};
ghost use Rattle.json.specs.Print.{escape};
ghost use Rattle.json_parts.specs.Lists.{Leads};
ghost use Rattle.json_parts.specs.Members.{ArePlain, AreMembers};

use crate::front::{after, after_bytes, after_key, after_spaces, around_last};
use std::str::from_utf8;

/// The keys of an object's members, in their order.
#[derive(Drop)]
pub struct Keys<'a> {
    pub first: &'a str,
    pub second: &'a str,
    pub third: &'a str,
    pub last: &'a str,
}

/// The members of an object: three texts, and the text of the last one's value.
#[derive(Drop)]
pub struct Members<'a> {
    pub first: &'a str,
    pub second: &'a str,
    pub third: &'a str,
    pub last: &'a [u8],
}

/// The members of an object that has these keys alone, in this order, the first three with texts; None where keys or texts are
/// written with escapes, and for a text of another form. The last value isn't checked: where it is JSON nested at most 124 deep,
/// the whole is the object of these members. Takes no memory, and little time: it looks at the front and at the end alone.
pub fn cut_object<'a>(keys: &Keys<'_>, whole: &'a [u8]) -> Option<Members<'a>>
    requires { ArePlain keys.now }
    ensures { IfSome result (λ members. AreMembers keys.now whole.now members) }
{
    let (first, rest) = text_member(keys.first, after(b'{', whole)?)?;
    let (second, rest) = text_member(keys.second, rest)?;
    let (third, rest) = text_member(keys.third, rest)?;
    let value = after(b':', after_key(keys.last, rest)?)?;
    let (last, end) = around_last(b'}', value)?;
    if after_spaces(end).is_empty() {
        Some(Members {
            first,
            second,
            third,
            last,
        })
    } else {
        None
    }
}

// The text of the member of a key, and what follows the comma after it.
fn text_member<'a>(key: &str, text: &'a [u8]) -> Option<(&'a str, &'a [u8])>
    requires { escape key.now ≡ key.now }
    ensures { IfSome result (λ r. Leads (token (string key.now) ∷ colon ∷ token (string r.0.now) ∷ comma ∷ []) text.now r.1.now) }
{
    let value = after(b':', after_key(key, text)?)?;
    let (found, end) = text_first(value)?;
    Some((found, after(b',', end)?))
}

// A text without escapes, before which there may be white space, and what follows it.
fn text_first(text: &[u8]) -> Option<(&str, &[u8])>
    ensures { IfSome result (λ r. Leads (token (string r.0.now) ∷ []) text.now r.1.now) }
{
    let quoted = after_bytes(b"\"", after_spaces(text))?;
    let (inner, closing) = quoted.split_at(plain_front(quoted));
    let rest = after_bytes(b"\"", closing)?;
    match from_utf8(inner) {
        Ok(found) => Some((found, rest)),
        Err(_) => None,
    }
}

// How many bytes stand for themselves in a text.
fn plain_front(text: &[u8]) -> usize
    ensures within { result ≤ length text.now }
    ensures plain { escape (take result text.now) ≡ take result text.now }
{
    let mut place = 0;
    while place < text.len() && is_plain(text[place]) {
        place += 1;
    }
    place
}

// Whether a byte stands for itself in a text.
fn is_plain(byte: u8) -> bool
    ensures { result ≡ (nat_le 32 byte && not (byte == 34) && not (byte == 92)) }
{
    32 <= byte && byte != b'"' && byte != b'\\'
}
