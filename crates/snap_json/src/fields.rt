ghost use Rattle.std.specs.Prelude.{◌≡◌, IfOk, option_copied};
ghost use Rattle.std.specs.List.{list_all};
ghost use Rattle.serde_json.specs.View.{view, items_view};
ghost use Rattle.snap_json.specs.Seen.{seen};
ghost use Rattle.snap_json.specs.Fields.{whole, number_of, null_or_number, parent_of, text_of, name_of, space_named, space_of, attr, attrs, attrs_of, known, times, facts_named, facts_of};

use serde_json::Value;
use snap_tree::{Attr, Facts, List, NodeId, OutOfMemory, Space, Text};
use std::alloc::Global;

/// The number that a member is: a whole number from 1 to 4,294,967,295; None where it is absent or none.
pub fn number_of(member: Option<&Value>) -> Option<NodeId>
    ensures { result ≡ number_of (seen member.entry) }
{
    whole(member?)
}

#[tactic(auto, using(crate::proofs::FieldCases::whole_by))]
fn whole(value: &Value) -> Option<NodeId>
    ensures { result ≡ whole (view value.now) }
{
    let n = u32::try_from(value.as_u64()?).ok()?;
    if n == 0 { None } else { Some(NodeId(n)) }
}

/// Null, for no parent, or a number.
pub(crate) fn parent_of(member: Option<&Value>) -> Option<Option<NodeId>>
    ensures { result ≡ parent_of (seen member.entry) }
{
    null_or_number(member?)
}

#[tactic(auto, using(crate::proofs::FieldCases::null_or_number_by))]
fn null_or_number(value: &Value) -> Option<Option<NodeId>>
    ensures { result ≡ null_or_number (view value.now) }
{
    if value.is_null() {
        return Some(None);
    }
    Some(Some(whole(value)?))
}

/// The text that a member is, lent by it; None where it is absent or no text.
#[tactic(auto, using(crate::proofs::FieldCases::text_by))]
pub fn lent_text(member: Option<&Value>) -> Option<&str>
    ensures { option_copied result ≡ text_of (seen member.entry) }
{
    member?.as_str()
}

/// The text that a member is, as a copy; None where it is absent or no text.
pub fn text_of(alloc: Global, member: Option<&Value>) -> Result<Option<Text>, OutOfMemory>
    ensures { IfOk result (λ t. t ≡ text_of (seen member.entry)) }
{
    match lent_text(member) {
        Some(text) => Ok(Some(Text::from_str(alloc, text)?)),
        None => Ok(None),
    }
}

/// A text with a character.
pub(crate) fn name_of(alloc: Global, member: Option<&Value>) -> Result<Option<Text>, OutOfMemory>
    ensures { IfOk result (λ t. t ≡ name_of (seen member.entry)) }
{
    match lent_text(member) {
        Some(text) if !text.is_empty() => Ok(Some(Text::from_str(alloc, text)?)),
        _ => Ok(None),
    }
}

/// A name space; html where the member is absent.
pub(crate) fn space_of(member: Option<&Value>) -> Option<Space>
    ensures { result ≡ space_of (seen member.entry) }
{
    match member {
        None => Some(Space::Html),
        Some(_) => space_named(lent_text(member)?),
    }
}

pub(crate) fn space_named(name: &str) -> Option<Space>
    ensures { result ≡ space_named name.now }
{
    if name == "html" {
        Some(Space::Html)
    } else if name == "svg" {
        Some(Space::Svg)
    } else if name == "other" {
        Some(Space::Other)
    } else {
        None
    }
}

/// The browser's facts that a member is, each named by a letter, at most once and in any order; rendered and
/// visible where it is absent, None where it is anything else.
pub fn facts_of(member: Option<&Value>) -> Option<Facts>
    ensures { result ≡ facts_of (seen member.entry) }
{
    match member {
        None => facts_named("rv"),
        Some(_) => facts_named(lent_text(member)?),
    }
}

pub(crate) fn facts_named(letters: &str) -> Option<Facts>
    ensures { result ≡ facts_named letters.now }
{
    let letters = letters.as_bytes();
    let rendered = times(b'r', letters);
    let visible = times(b'v', letters);
    let focusable = times(b'f', letters);
    let tabbable = times(b't', letters);
    let once = (rendered <= 1) & (visible <= 1) & (focusable <= 1) & (tabbable <= 1);
    if are_known(letters) & once {
        Some(Facts {
            rendered: rendered == 1,
            visible: visible == 1,
            focusable: focusable == 1,
            tabbable: tabbable == 1,
        })
    } else {
        None
    }
}

fn are_known(letters: &[u8]) -> bool
    ensures { result ≡ list_all known letters.now }
{
    letters.iter().all(|c| (*c == b'r') | (*c == b'v') | (*c == b'f') | (*c == b't'))
}

fn times(letter: u8, letters: &[u8]) -> usize
    ensures { result ≡ times letter letters.now }
{
    letters.iter().filter(|c| **c == letter).count()
}

/// A list of attributes; none where the member is absent.
pub(crate) fn attrs_of(
    alloc: Global,
    member: Option<&Value>,
) -> Result<Option<List<Attr>>, OutOfMemory>
    ensures { IfOk result (λ found. found ≡ attrs_of (seen member.entry)) }
{
    match member {
        None => Ok(Some(List::from_vec(Vec::new(alloc)))),
        Some(value) => match value.as_array() {
            Some(pairs) => attrs(alloc, pairs.as_slice()),
            None => Ok(None),
        },
    }
}

fn attrs(alloc: Global, pairs: &[Value]) -> Result<Option<List<Attr>>, OutOfMemory>
    ensures { IfOk result (λ found. found ≡ attrs (items_view pairs.now)) }
{
    let mut found = Vec::new(alloc);
    for pair in pairs {
        match attr(alloc, pair)? {
            Some(attr) => found.push(attr)?,
            None => return Ok(None),
        }
    }
    Ok(Some(List::from_vec(found)))
}

/// A pair of texts, the first not empty.
fn attr(alloc: Global, pair: &Value) -> Result<Option<Attr>, OutOfMemory>
    ensures { IfOk result (λ found. found ≡ attr (view pair.now)) }
{
    if pair.get(2usize).is_some() {
        return Ok(None);
    }
    let Some(name) = name_of(alloc, pair.get(0usize))? else {
        return Ok(None);
    };
    let Some(value) = text_of(alloc, pair.get(1usize))? else {
        return Ok(None);
    };
    Ok(Some(Attr { name, value }))
}
