ghost use Rattle.std.specs.Prelude.{◌≡◌, ◌==◌, ◌∷◌, ℕ, slice_index, Some, length, IfOk, IfSome, OnOk, option_and_then, option_map};
ghost use Rattle.fast_float.specs.Text.{minus};
ghost use Rattle.json.specs.Reads.{token_of};
ghost use Rattle.json.specs.Token.{begin_object, begin_array, string};
ghost use Rattle.serde_json.specs.Data.{number, unsigned};
ghost use Rattle.serde_json.specs.Read.{number_of as number_in};
ghost use Rattle.snap_json.specs.Fields.{whole, number_of, parent_of, text_of, name_of, space_of, attrs_of, facts_of};
ghost use Rattle.snap_json.specs.Straight.{IsPlain, ReadsAny, ReadsAnyItems, Takes, TakesPair, TakesPairs};

use crate::fields;
use crate::unread::Unread;
use fast_float::Numeral;
use json::{Reader, Token};
use snap_tree::{Attr, Facts, List, NodeId, Space, Text};
use std::alloc::Global;

// The next token.
fn token<'a>(reader: &mut Reader<'a>) -> Result<Token<'a>, Unread>
    ensures { IfOk result (λ t. reader.old ≡ token_of t ∷ reader.new) }
{
    match reader.next() {
        Some(token) => Ok(token),
        None => Err(Unread::Unusual),
    }
}

/// Passes the brace that begins an object.
pub(crate) fn begin_object(reader: &mut Reader<'_>) -> Result<(), Unread>
    ensures { OnOk result (reader.old ≡ begin_object ∷ reader.new) }
{
    let front = token(reader)?;
    match front {
        Token::BeginObject => Ok(()),
        _ => Err(Unread::Unusual),
    }
}

/// Passes the bracket that begins a list.
pub(crate) fn begin_array(reader: &mut Reader<'_>) -> Result<(), Unread>
    ensures { OnOk result (reader.old ≡ begin_array ∷ reader.new) }
{
    let front = token(reader)?;
    match front {
        Token::BeginArray => Ok(()),
        _ => Err(Unread::Unusual),
    }
}

// Whether a number is below 0, or begins as if it were.
fn has_minus(bytes: &[u8]) -> bool
    ensures { result ≡ (slice_index bytes.now 0 == minus) }
{
    !bytes.is_empty() && bytes[0] == b'-'
}

// The number that a token of digits alone is, where it fits 64 bits.
fn unsigned(text: &str) -> Option<u64>
    ensures { IfSome result (λ n. number_in text.now ≡ Some (unsigned n)) }
{
    let bytes = text.as_bytes();
    if has_minus(bytes) {
        return None;
    }
    Numeral::scan(bytes).to_u64()
}

fn id(text: &str) -> Option<NodeId>
    ensures { IfSome result (λ n. option_and_then whole (option_map number (number_in text.now)) ≡ Some n) }
{
    let n = u32::try_from(unsigned(text)?).ok()?;
    if n == 0 { None } else { Some(NodeId(n)) }
}

/// A node's number.
pub(crate) fn number(reader: &mut Reader<'_>) -> Result<NodeId, Unread>
    ensures { IfOk result (λ n. Takes number_of reader.old n reader.new) }
{
    let front = token(reader)?;
    match front {
        Token::Number(text) => match id(text) {
            Some(id) => Ok(id),
            None => Err(Unread::Unusual),
        },
        _ => Err(Unread::Unusual),
    }
}

/// The number of a parent; null where there is none.
pub(crate) fn parent(reader: &mut Reader<'_>) -> Result<Option<NodeId>, Unread>
    ensures { IfOk result (λ p. Takes parent_of reader.old p reader.new) }
{
    let front = token(reader)?;
    match front {
        Token::Null => Ok(None),
        Token::Number(text) => match id(text) {
            Some(id) => Ok(Some(id)),
            None => Err(Unread::Unusual),
        },
        _ => Err(Unread::Unusual),
    }
}

/// A text, lent by the snapshot.
pub(crate) fn lent<'a>(reader: &mut Reader<'a>) -> Result<&'a str, Unread>
    ensures { IfOk result (λ s. reader.old ≡ string s.now ∷ reader.new) }
{
    let front = token(reader)?;
    match front {
        Token::String(text) => Ok(text),
        _ => Err(Unread::Unusual),
    }
}

/// A text.
pub(crate) fn text(alloc: Global, reader: &mut Reader<'_>) -> Result<Text, Unread>
    ensures { IfOk result (λ t. Takes text_of reader.old t reader.new) }
{
    let text = lent(reader)?;
    Ok(Text::from_str(alloc, text)?)
}

/// A text with a character.
pub(crate) fn name(alloc: Global, reader: &mut Reader<'_>) -> Result<Text, Unread>
    ensures { IfOk result (λ t. Takes name_of reader.old t reader.new) }
{
    let text = lent(reader)?;
    if text.is_empty() {
        return Err(Unread::Unusual);
    }
    Ok(Text::from_str(alloc, text)?)
}

/// A name space.
pub(crate) fn space(reader: &mut Reader<'_>) -> Result<Space, Unread>
    ensures { IfOk result (λ s. Takes space_of reader.old s reader.new) }
{
    match fields::space_named(lent(reader)?) {
        Some(space) => Ok(space),
        None => Err(Unread::Unusual),
    }
}

/// The browser's facts.
pub(crate) fn facts(reader: &mut Reader<'_>) -> Result<Facts, Unread>
    ensures { IfOk result (λ f. Takes facts_of reader.old f reader.new) }
{
    match fields::facts_named(lent(reader)?) {
        Some(facts) => Ok(facts),
        None => Err(Unread::Unusual),
    }
}

/// A list of attributes.
pub(crate) fn attrs(alloc: Global, reader: &mut Reader<'_>) -> Result<List<Attr>, Unread>
    ensures { IfOk result (λ found. Takes attrs_of reader.old found reader.new) }
{
    begin_array(reader)?;
    let found = pairs(alloc, reader)?;
    Ok(found)
}

// The attributes up to the bracket that ends their list.
fn pairs(alloc: Global, reader: &mut Reader<'_>) -> Result<List<Attr>, Unread>
    ensures { IfOk result (λ found. TakesPairs reader.old found reader.new) }
{
    let mut found = Vec::new(alloc);
    'pairs: while !reader.take_end_array() {
        let attr = pair(alloc, reader)?;
        found.push(attr)?;
    }
    Ok(List::from_vec(found))
}

// An attribute: a pair of texts, the first not empty.
fn pair(alloc: Global, reader: &mut Reader<'_>) -> Result<Attr, Unread>
    ensures { IfOk result (λ a. TakesPair reader.old a reader.new) }
{
    begin_array(reader)?;
    let name = lent(reader)?;
    let value = lent(reader)?;
    if name.is_empty() {
        return Err(Unread::Unusual);
    }
    if !reader.take_end_array() {
        return Err(Unread::Unusual);
    }
    Ok(Attr {
        name: Text::from_str(alloc, name)?,
        value: Text::from_str(alloc, value)?,
    })
}

// Whether a token is a value that nobody looks at: a text, a number without a sign that fits 64 bits, true, false
// or null.
fn is_plain(token: Token<'_>) -> bool
    ensures { IsPlain result (token_of token.entry) }
{
    match token {
        Token::String(_) => true,
        Token::Bool(_) => true,
        Token::Null => true,
        Token::Number(text) => unsigned(text).is_some(),
        _ => false,
    }
}

/// A member that a page has beside its own: a value of one token.
pub(crate) fn plain(reader: &mut Reader<'_>) -> Result<(), Unread>
    ensures { OnOk result ((depth : ℕ) → ReadsAny depth reader.old reader.new) }
{
    let front = token(reader)?;
    if is_plain(front) {
        Ok(())
    } else {
        Err(Unread::Unusual)
    }
}

/// A member that a row has beside its own: a value of one token, or a list of such values.
pub(crate) fn unasked(reader: &mut Reader<'_>) -> Result<(), Unread>
    ensures { OnOk result (ReadsAny 124 reader.old reader.new) }
{
    let front = token(reader)?;
    match front {
        Token::BeginArray => {
            plain_items(reader)?;
            Ok(())
        }
        _ => {
            if is_plain(front) {
                Ok(())
            } else {
                Err(Unread::Unusual)
            }
        }
    }
}

// Values of one token up to the bracket that ends their list.
fn plain_items(reader: &mut Reader<'_>) -> Result<(), Unread>
    ensures { OnOk result (ReadsAnyItems 123 reader.old reader.new) }
{
    'items: while !reader.take_end_array() {
        plain(reader)?;
    }
    Ok(())
}
