ghost use Rattle.std.specs.Prelude.{◌≡◌, IfOk};
ghost use Rattle.std.specs.List.{find};
ghost use Rattle.std.specs.Option.{option_copied};
ghost use Rattle.serde_json.specs.View.{view};
ghost use Rattle.snap_json.specs.Seen.{seen};
ghost use Rattle.http_commands.specs.Shapes.{Gives};
ghost use Rattle.http_commands.specs.Judging.{has_id, atomic_no, rule_named, rule_of, verdict_named, verdict_of, digest_named, digest_of, note_of, opinion_in};

use crate::shape::in_shape;
use crate::unasked::Unasked;
use desk_core::MOST_NOTE;
use hex::FromHex;
use http_routes::Part;
use judge_core::infos_of;
use rule_core::{Auto, RuleBook, RuleInfo, RuleNo};
use serde_json::Value;
use snap_json::{lent_text, number_of};
use snap_tree::{NodeId, OutOfMemory, Text};
use std::alloc::Global;

/// What a judge says of a rule on a node.
#[derive(Debug, Drop)]
pub(crate) struct Opinion {
    pub rule: RuleNo,
    pub node: NodeId,
    pub verdict: Auto,
    /// The SHA-256 of the evidence that the judge saw.
    pub digest: [u8; 32],
    pub note: Text,
}

/// The judgement that is the body.
pub(crate) fn opinion_in<B: RuleBook>(
    alloc: Global,
    book: &B,
    body: &Value,
) -> Result<Opinion, Unasked>
    ensures { Gives result (opinion_in B.book.infos (view body.now)) }
{
    in_shape(Part::Body, 0, body.as_object())?;
    let rule = rule_of(alloc, book, body.get("rule"))?;
    let rule = in_shape(Part::Rule, 0, rule)?;
    let node = in_shape(Part::Node, 0, number_of(body.get("node")))?;
    let verdict = in_shape(Part::Verdict, 0, verdict_of(body.get("verdict")))?;
    let digest = in_shape(Part::Digest, 0, digest_of(body.get("digest")))?;
    let note = note_of(alloc, body.get("note"))?;
    let note = in_shape(Part::Note, 0, note)?;
    Ok(Opinion {
        rule,
        node,
        verdict,
        digest,
        note,
    })
}

// The number of the atomic rule of the book that the member has the id of.
fn rule_of<B: RuleBook>(
    alloc: Global,
    book: &B,
    member: Option<&Value>,
) -> Result<Option<RuleNo>, OutOfMemory>
    ensures { IfOk result (λ rule. rule ≡ rule_of B.book.infos (seen member.entry)) }
{
    let infos = infos_of(alloc, book)?;
    Ok(rule_among(infos.as_slice(), member))
}

fn rule_among(infos: &[RuleInfo], member: Option<&Value>) -> Option<RuleNo>
    ensures { result ≡ rule_of infos.now (seen member.entry) }
{
    rule_named(infos, lent_text(member)?)
}

fn rule_named(infos: &[RuleInfo], id: &str) -> Option<RuleNo>
    ensures { result ≡ rule_named infos.now id.now }
{
    atomic_no(info_of(infos, id)?)
}

fn info_of<'a>(infos: &'a [RuleInfo], id: &str) -> Option<&'a RuleInfo>
    ensures { option_copied result ≡ find (has_id id.now) infos.now }
{
    infos.iter().find(|info| has_id(info, id))
}

fn has_id(info: &RuleInfo, id: &str) -> bool
    ensures { result ≡ has_id id.now info.now }
{
    info.id.as_slice() == id.as_bytes()
}

fn atomic_no(info: &RuleInfo) -> Option<RuleNo>
    ensures { result ≡ atomic_no info.now }
{
    if info.is_atomic() {
        Some(info.no)
    } else {
        None
    }
}

fn verdict_of(member: Option<&Value>) -> Option<Auto>
    ensures { result ≡ verdict_of (seen member.entry) }
{
    verdict_named(lent_text(member)?)
}

fn verdict_named(word: &str) -> Option<Auto>
    ensures { result ≡ verdict_named word.now }
{
    if word == "passed" {
        Some(Auto::Passed)
    } else if word == "failed" {
        Some(Auto::Failed)
    } else if word == "cantTell" {
        Some(Auto::CantTell)
    } else {
        None
    }
}

// The bytes of 64 hexadecimal digits of either case.
fn digest_of(member: Option<&Value>) -> Option<[u8; 32]>
    ensures { result ≡ digest_of (seen member.entry) }
{
    digest_named(lent_text(member)?)
}

fn digest_named(digits: &str) -> Option<[u8; 32]>
    ensures { result ≡ digest_named digits.now }
{
    <[u8; 32] as FromHex>::from_hex(digits).ok()
}

// A text of at most 2,000 bytes; empty where it is absent.
fn note_of(alloc: Global, member: Option<&Value>) -> Result<Option<Text>, OutOfMemory>
    ensures { IfOk result (λ note. note ≡ note_of (seen member.entry)) }
{
    match member {
        None => Ok(Some(Text::from_str(alloc, "")?)),
        Some(_) => match lent_text(member) {
            Some(note) if note.len() <= MOST_NOTE => Ok(Some(Text::from_str(alloc, note)?)),
            _ => Ok(None),
        },
    }
}
