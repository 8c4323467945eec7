//! What was read and taken, in words.

use crate::book::{infos, word};
use earl_in::{Claim, EarlFault, Taken, read_earl};
use judge_core::Judgement;
use serde_json::Value;
use snap_tree::OutOfMemory;
use std::alloc::Global;

fn shown_claim(alloc: Global, claim: &Claim) -> Result<String, OutOfMemory> {
    let digest = hex::encode(alloc, claim.digest)?;
    let subject = claim.subject.as_str();
    let note = claim.note.as_str();
    let rule = claim.rule.0;
    let node = claim.node.0;
    let verdict = word(claim.verdict);
    Ok(format!(in alloc; "{subject} {rule} {node} {verdict} {digest} {note}")?)
}

/// The claim that an entry is, or that it is skipped.
pub(crate) fn shown_entry(alloc: Global, entry: &Option<Claim>) -> Result<String, OutOfMemory> {
    match entry {
        Some(claim) => shown_claim(alloc, claim),
        None => Ok(String::from_str(alloc, "skipped")?),
    }
}

/// The entries of a list, with `, ` between them.
pub(crate) fn shown_entries(
    alloc: Global,
    entries: &[Option<Claim>],
) -> Result<String, OutOfMemory> {
    if entries.is_empty() {
        return Ok(String::from_str(alloc, "nothing")?);
    }
    let mut shown = String::new(alloc);
    for entry in entries {
        if !shown.is_empty() {
            shown.push_str(", ")?;
        }
        shown.push_str(shown_entry(alloc, entry)?.as_str())?;
    }
    Ok(shown)
}

/// What is read of a body: its entries, or the fault's name.
pub(crate) fn shown_body(alloc: Global, body: &str) -> Result<String, OutOfMemory> {
    let Ok(value) = Value::from_str(alloc, body) else {
        return Ok(String::from_str(alloc, "no JSON")?);
    };
    match read_earl(alloc, infos().as_slice(), &value) {
        Ok(entries) => shown_entries(alloc, entries.as_slice()),
        Err(EarlFault::Body) => Ok(String::from_str(alloc, "Body")?),
        Err(EarlFault::Graph) => Ok(String::from_str(alloc, "Graph")?),
        Err(EarlFault::OutOfMemory) => Err(OutOfMemory),
    }
}

fn shown_judgement(alloc: Global, judgement: &Judgement) -> Result<String, OutOfMemory> {
    let rule = judgement.rule.0;
    let node = judgement.node.0;
    let verdict = word(judgement.verdict);
    let hand = judgement.hand.as_str();
    let evidence = judgement.evidence.as_str();
    let note = judgement.note.as_str();
    Ok(format!(in alloc; "added {rule} {node} {verdict} {hand} {evidence} {note}")?)
}

/// What taking came to: a line for each judgement that was added, and how many were known and skipped.
pub(crate) fn shown_taken(alloc: Global, taken: &Taken) -> Result<String, OutOfMemory> {
    let mut shown = String::new(alloc);
    for judgement in taken.added.as_slice() {
        let line = shown_judgement(alloc, judgement)?;
        shown.push_str(line.as_str().trim_end())?;
        shown.push('\n')?;
    }
    let known = taken.known;
    let skipped = taken.skipped;
    let counts = format!(in alloc; "known {known} skipped {skipped}\n")?;
    shown.push_str(counts.as_str())?;
    Ok(shown)
}
