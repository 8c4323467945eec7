//! What stands before the items of the list, and after them.

ghost use Rattle.std.specs.Prelude.{◌≡◌, ◌≤◌, ◌++◌, [], ◌∷◌, length, true, IfSome};
ghost use Rattle.json.specs.Token.{string};
ghost use Rattle.json.specs.Word.{is_operator, is_space};
ghost use Rattle.json.specs.Lex.{token, operator_lexeme};
ghost use Rattle.json.specs.Print.{escape};
ghost use Rattle.json_parts.specs.Lists.{Leads, Holds};

/// What stands between the brackets of the list, in an object that has it by this key and nothing else; None for a text of
/// another form.
pub(crate) fn list_in<'a>(key: &str, text: &'a [u8]) -> Option<&'a [u8]>
    requires { escape key.now ≡ key.now }
    ensures { IfSome result (λ list. Holds key.now text.now list.now) }
{
    let members = after(b'{', text)?;
    let value = after(b':', after_key(key, members)?)?;
    let (list, end) = around_last(b']', after(b'[', value)?)?;
    let rest = after_spaces(after(b'}', end)?);
    if rest.is_empty() { Some(list) } else { None }
}

/// What follows an operator, before which there may be white space.
pub(crate) fn after(byte: u8, text: &[u8]) -> Option<&[u8]>
    requires { is_operator byte ≡ true }
    ensures { IfSome result (λ rest. Leads (operator_lexeme byte ∷ []) text.now rest.now) }
{
    match after_spaces(text).split_first() {
        Some((first, rest)) if *first == byte => Some(rest),
        _ => None,
    }
}

/// What follows a key, before which there may be white space.
pub(crate) fn after_key<'a>(key: &str, text: &'a [u8]) -> Option<&'a [u8]>
    requires { escape key.now ≡ key.now }
    ensures { IfSome result (λ rest. Leads (token (string key.now) ∷ []) text.now rest.now) }
{
    let quoted = after_bytes(b"\"", after_spaces(text))?;
    let closing = after_bytes(key.as_bytes(), quoted)?;
    after_bytes(b"\"", closing)
}

#[tactic(auto, using(crate::proofs::Fronts::stripped))]
pub(crate) fn after_bytes<'a>(bytes: &[u8], text: &'a [u8]) -> Option<&'a [u8]>
    ensures { IfSome result (λ rest. text.now ≡ bytes.now ++ rest.now) }
{
    text.strip_prefix(bytes)
}

#[tactic(auto, using(crate::proofs::Fronts::leads_itself))]
pub(crate) fn after_spaces(text: &[u8]) -> &[u8]
    ensures { Leads [] text.now result.now }
{
    let mut rest = text;
    while let Some((first, later)) = rest.split_first() {
        if !is_space(*first) {
            return rest;
        }
        rest = later;
    }
    rest
}

fn is_space(byte: u8) -> bool
    ensures { result ≡ is_space byte }
{
    byte == b' ' || byte == b'\t' || byte == b'\n' || byte == b'\r'
}

/// What stands before the last such byte, and after it.
pub(crate) fn around_last(byte: u8, text: &[u8]) -> Option<(&[u8], &[u8])>
    ensures { IfSome result (λ r. text.now ≡ r.0.now ++ byte ∷ r.1.now) }
{
    around(byte, last_place(byte, text), text)
}

// The place of the last such byte, or 0 where there is none.
fn last_place(byte: u8, text: &[u8]) -> usize
    ensures { result ≤ length text.now }
{
    let mut front = text;
    while let Some((last, before)) = front.split_last() {
        if *last == byte {
            return before.len();
        }
        front = before;
    }
    0
}

/// What stands before a byte at a place, and after it; None where another byte stands there.
pub(crate) fn around(byte: u8, place: usize, text: &[u8]) -> Option<(&[u8], &[u8])>
    requires { place ≤ length text.now }
    ensures { IfSome result (λ r. text.now ≡ r.0.now ++ byte ∷ r.1.now) }
{
    let (before, rest) = text.split_at(place);
    match rest.split_first() {
        Some((first, after)) if *first == byte => Some((before, after)),
        _ => None,
    }
}
