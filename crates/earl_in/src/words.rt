//! The texts of an entry.

ghost use Rattle.std.specs.Prelude.{◌≡◌, IfOk, option_copied, option_and_then};
ghost use Rattle.std.specs.List.{find, list_all, before_first, after_first};
ghost use Rattle.std.specs.Char.{is_ascii_digit};
ghost use Rattle.serde_json.specs.View.{view};
ghost use Rattle.snap_json.specs.Seen.{seen};
ghost use Rattle.earl_in.specs.Words.{after, in_short, named, reference_of, has_id, atomic_no, rule_with_id, rule_named, rule_of, is_by_person, is_person_mode, verdict_named, verdict_of, is_number, node_numbered, node_named, node_of, is_space, is_lower_digit, digest_named, digest_in, digest_of, note_in, note_of};

use crate::limits::MOST_NOTE;
use hex::FromHex;
use rule_core::{Auto, RuleInfo, RuleNo};
use serde_json::Value;
use snap_json::lent_text;
use snap_tree::{NodeId, OutOfMemory, Text};
use std::alloc::Global;

// What follows a front of a text; None where the text has another one.
fn after<'a>(text: &'a str, front: &str) -> Option<&'a str>
    ensures { option_copied result ≡ after front.now text.now }
{
    text.strip_prefix(front)
}

// A name, with the namespace of EARL in short.
fn in_short(alloc: Global, name: &str) -> Result<Text, OutOfMemory>
    ensures { IfOk result (λ t. t ≡ in_short name.now) }
{
    match after(name, "http://www.w3.org/ns/earl#") {
        Some(term) => Ok(Text::from_string(format!(in alloc; "earl:{term}")?)),
        None => Text::from_str(alloc, name),
    }
}

// A text, or the `@id` of an object.
fn named(value: &Value) -> Option<&str>
    ensures { option_copied result ≡ named (view value.now) }
{
    match lent_text(Some(value)) {
        Some(name) => Some(name),
        None => lent_text(value.get("@id")),
    }
}

fn named_by(member: Option<&Value>) -> Option<&str>
    ensures { option_copied result ≡ option_and_then named (seen member.entry) }
{
    named(member?)
}

/// What a reference names; None where the member is no reference.
pub(crate) fn reference_of(
    alloc: Global,
    member: Option<&Value>,
) -> Result<Option<Text>, OutOfMemory>
    ensures { IfOk result (λ name. name ≡ reference_of (seen member.entry)) }
{
    match named_by(member) {
        Some(name) => Ok(Some(in_short(alloc, name)?)),
        None => Ok(None),
    }
}

/// The number of the atomic rule that the member refers to.
pub(crate) fn rule_of(
    alloc: Global,
    infos: &[RuleInfo],
    member: Option<&Value>,
) -> Result<Option<RuleNo>, OutOfMemory>
    ensures { IfOk result (λ rule. rule ≡ rule_of infos.now (seen member.entry)) }
{
    match reference_of(alloc, member)? {
        Some(test) => Ok(rule_named(infos, test.as_str())),
        None => Ok(None),
    }
}

fn rule_named(infos: &[RuleInfo], test: &str) -> Option<RuleNo>
    ensures { result ≡ rule_named infos.now test.now }
{
    rule_with_id(infos, after(test, "urn:act-rule:")?)
}

fn rule_with_id(infos: &[RuleInfo], id: &str) -> Option<RuleNo>
    ensures { result ≡ rule_with_id infos.now id.now }
{
    atomic_no(info_of(infos, id)?)
}

fn info_of<'a>(infos: &'a [RuleInfo], id: &str) -> Option<&'a RuleInfo>
    ensures { option_copied result ≡ find (has_id id.now) infos.now }
{
    infos.iter().find(|info| has_id(info, id))
}

fn has_id(info: &RuleInfo, id: &str) -> bool
    ensures { result ≡ has_id id.now info.now }
{
    info.id.as_slice() == id.as_bytes()
}

fn atomic_no(info: &RuleInfo) -> Option<RuleNo>
    ensures { result ≡ atomic_no info.now }
{
    if info.is_atomic() {
        Some(info.no)
    } else {
        None
    }
}

/// Whether the member refers to a mode in which a person judges.
pub(crate) fn is_by_person(alloc: Global, member: Option<&Value>) -> Result<bool, OutOfMemory>
    ensures { IfOk result (λ is. is ≡ is_by_person (seen member.entry)) }
{
    match reference_of(alloc, member)? {
        Some(mode) => Ok(is_person_mode(mode.as_str())),
        None => Ok(false),
    }
}

fn is_person_mode(mode: &str) -> bool
    ensures { result ≡ is_person_mode mode.now }
{
    mode == "earl:manual" || mode == "earl:semiAuto"
}

/// The verdict that the member refers to.
pub(crate) fn verdict_of(alloc: Global, member: Option<&Value>) -> Result<Option<Auto>, OutOfMemory>
    ensures { IfOk result (λ verdict. verdict ≡ verdict_of (seen member.entry)) }
{
    match reference_of(alloc, member)? {
        Some(outcome) => Ok(verdict_named(outcome.as_str())),
        None => Ok(None),
    }
}

fn verdict_named(outcome: &str) -> Option<Auto>
    ensures { result ≡ verdict_named outcome.now }
{
    if outcome == "earl:passed" {
        Some(Auto::Passed)
    } else if outcome == "earl:failed" {
        Some(Auto::Failed)
    } else if outcome == "earl:cantTell" {
        Some(Auto::CantTell)
    } else {
        None
    }
}

/// The node that the member points to.
pub(crate) fn node_of(member: Option<&Value>) -> Option<NodeId>
    ensures { result ≡ node_of (seen member.entry) }
{
    node_named(lent_text(member)?)
}

fn node_named(pointer: &str) -> Option<NodeId>
    ensures { result ≡ node_named pointer.now }
{
    node_numbered(after(pointer, "node ")?)
}

fn node_numbered(digits: &str) -> Option<NodeId>
    ensures { result ≡ node_numbered digits.now }
{
    if !is_number(digits.as_bytes()) {
        return None;
    }
    match digits.parse::<u32>() {
        Ok(number) => Some(NodeId(number)),
        Err(_) => None,
    }
}

// Digits, of which the first isn't 0.
fn is_number(digits: &[u8]) -> bool
    ensures { result ≡ is_number digits.now }
{
    match digits.first() {
        Some(first) => (*first != b'0') & has_digits_alone(digits),
        None => false,
    }
}

fn has_digits_alone(bytes: &[u8]) -> bool
    ensures { result ≡ list_all is_ascii_digit bytes.now }
{
    bytes.iter().all(
        |byte: &u8| -> bool
            ensures { result ≡ is_ascii_digit byte.now }
        { byte.is_ascii_digit() },
    )
}

// What stands before the first space, and after it.
fn parts_of(info: &str) -> (&str, &str)
    ensures front { result.0.now ≡ before_first is_space info.now }
    ensures later { result.1.now ≡ after_first is_space info.now }
{
    match info.split_once(' ') {
        Some(parts) => parts,
        None => (info, ""),
    }
}

/// The digest at the front of the member.
pub(crate) fn digest_of(member: Option<&Value>) -> Option<[u8; 32]>
    ensures { result ≡ digest_of (seen member.entry) }
{
    digest_in(lent_text(member)?)
}

fn digest_in(info: &str) -> Option<[u8; 32]>
    ensures { result ≡ digest_in info.now }
{
    let (digits, _) = parts_of(info);
    digest_named(digits)
}

// The bytes of 64 hexadecimal digits in lower case.
fn digest_named(digits: &str) -> Option<[u8; 32]>
    ensures { result ≡ digest_named digits.now }
{
    if has_lower_digits_alone(digits.as_bytes()) {
        <[u8; 32] as FromHex>::from_hex(digits).ok()
    } else {
        None
    }
}

fn has_lower_digits_alone(bytes: &[u8]) -> bool
    ensures { result ≡ list_all is_lower_digit bytes.now }
{
    bytes.iter().all(|byte| is_lower_digit(*byte))
}

fn is_lower_digit(byte: u8) -> bool
    ensures { result ≡ is_lower_digit byte }
{
    byte.is_ascii_digit() | (b'a' <= byte && byte <= b'f')
}

/// The note behind the digest, of at most 2,000 bytes; empty where none is.
pub(crate) fn note_of(alloc: Global, member: Option<&Value>) -> Result<Option<Text>, OutOfMemory>
    ensures { IfOk result (λ note. note ≡ note_of (seen member.entry)) }
{
    match lent_text(member) {
        Some(info) => note_in(alloc, info),
        None => Ok(None),
    }
}

fn note_in(alloc: Global, info: &str) -> Result<Option<Text>, OutOfMemory>
    ensures { IfOk result (λ note. note ≡ note_in info.now) }
{
    let (_, note) = parts_of(info);
    if note.len() <= MOST_NOTE {
        Ok(Some(Text::from_str(alloc, note)?))
    } else {
        Ok(None)
    }
}
