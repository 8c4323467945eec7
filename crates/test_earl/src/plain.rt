//! What is read and taken, by a plain program that asks one thing after another.

use crate::book::{ADDRESS, EARL, HAND};
use earl_in::{Claim, Taken};
use hex::FromHex;
use judge_core::{Judgement, OutRow, evidence_digest};
use rule_core::{Auto, RuleInfo, RuleNo};
use serde_json::Value;
use snap_tree::{List, NodeId, OutOfMemory, Text};
use std::alloc::Global;

fn name<'a>(entry: &'a Value, key: &str) -> Option<&'a str> {
    let value = entry.get(key)?;
    if value.is_object() {
        value.get("@id")?.as_str()
    } else {
        value.as_str()
    }
}

// Whether a name is that of a term of EARL.
fn is_term(name: &str, term: &str) -> bool {
    name.strip_prefix("earl:") == Some(term) || name.strip_prefix(EARL) == Some(term)
}

fn subject(alloc: Global, entry: &Value) -> Result<Option<Text>, OutOfMemory> {
    let Some(name) = name(entry, "earl:subject") else {
        return Ok(None);
    };
    match name.strip_prefix(EARL) {
        Some(term) => {
            let short = format!(in alloc; "earl:{term}")?;
            Ok(Some(Text::from_string(short)))
        }
        None => Ok(Some(Text::from_str(alloc, name)?)),
    }
}

fn rule(infos: &[RuleInfo], entry: &Value) -> Option<RuleNo> {
    let id = name(entry, "earl:test")?.strip_prefix("urn:act-rule:")?;
    for info in infos {
        if info.inputs[0] == 0 && info.id.as_slice() == id.as_bytes() {
            return Some(info.no);
        }
    }
    None
}

fn verdict(told: &Value) -> Option<Auto> {
    let name = name(told, "earl:outcome")?;
    if is_term(name, "passed") {
        Some(Auto::Passed)
    } else if is_term(name, "failed") {
        Some(Auto::Failed)
    } else if is_term(name, "cantTell") {
        Some(Auto::CantTell)
    } else {
        None
    }
}

// The node whose pointer, written out, is the text.
fn node(alloc: Global, told: &Value) -> Result<Option<NodeId>, OutOfMemory> {
    let Some(pointer) = told.get("earl:pointer").and_then(Value::as_str) else {
        return Ok(None);
    };
    let digits = pointer.strip_prefix("node ").unwrap_or("");
    let number = digits.parse::<u32>().unwrap_or(0);
    let written = format!(in alloc; "node {number}")?;
    if number > 0 && written.as_str() == pointer {
        Ok(Some(NodeId(number)))
    } else {
        Ok(None)
    }
}

// What stands before the first space, and behind it.
fn parts(told: &Value) -> Option<(&str, &str)> {
    let info = told.get("earl:info")?.as_str()?;
    Some(info.split_once(' ').unwrap_or((info, "")))
}

// The digest that, written out, is the text.
fn digest(alloc: Global, digits: &str) -> Result<Option<[u8; 32]>, OutOfMemory> {
    let Ok(digest) = <[u8; 32] as FromHex>::from_hex(digits) else {
        return Ok(None);
    };
    let written = hex::encode(alloc, digest)?;
    if written.as_str() == digits {
        Ok(Some(digest))
    } else {
        Ok(None)
    }
}

// The rule, the node and the verdict of an entry by a person.
fn judged(
    alloc: Global,
    infos: &[RuleInfo],
    entry: &Value,
    told: &Value,
) -> Result<Option<(RuleNo, NodeId, Auto)>, OutOfMemory> {
    let mode = name(entry, "earl:mode").unwrap_or("");
    let by_person = is_term(mode, "manual") || is_term(mode, "semiAuto");
    match (rule(infos, entry), node(alloc, told)?, verdict(told)) {
        (Some(rule), Some(node), Some(verdict)) if by_person => Ok(Some((rule, node, verdict))),
        _ => Ok(None),
    }
}

/// The claim that an entry is.
pub(crate) fn claim(
    alloc: Global,
    infos: &[RuleInfo],
    entry: &Value,
) -> Result<Option<Claim>, OutOfMemory> {
    let Some(told) = entry.get("earl:result") else {
        return Ok(None);
    };
    let Some(subject) = subject(alloc, entry)? else {
        return Ok(None);
    };
    let Some((rule, node, verdict)) = judged(alloc, infos, entry, told)? else {
        return Ok(None);
    };
    let (digits, note) = parts(told).unwrap_or(("", ""));
    let Some(digest) = digest(alloc, digits)? else {
        return Ok(None);
    };
    if note.len() > 2000 {
        return Ok(None);
    }
    Ok(Some(Claim {
        subject,
        rule,
        node,
        verdict,
        digest,
        note: Text::from_str(alloc, note)?,
    }))
}

fn row_of<'a>(rows: &'a [OutRow], claim: &Claim) -> Option<&'a OutRow> {
    for row in rows {
        if row.rule.0 == claim.rule.0 && row.node.0 == claim.node.0 {
            return Some(row);
        }
    }
    None
}

// The judgement that an entry is, unless it is skipped.
fn judgement(
    alloc: Global,
    rows: &[OutRow],
    entry: &Option<Claim>,
) -> Result<Option<Judgement>, OutOfMemory> {
    let Some(claim) = entry else {
        return Ok(None);
    };
    let Some(row) = row_of(rows, claim) else {
        return Ok(None);
    };
    let is_seen = claim.digest == evidence_digest(&row.evidence);
    if claim.subject.as_str() != ADDRESS || row.auto != Auto::CantTell || !is_seen {
        return Ok(None);
    }
    Ok(Some(Judgement {
        rule: claim.rule,
        node: claim.node,
        verdict: claim.verdict,
        hand: Text::from_str(alloc, HAND)?,
        note: claim.note.copy(alloc)?,
        evidence: row.evidence.copy(alloc)?,
    }))
}

/// What taking entries comes to.
pub(crate) fn take(
    alloc: Global,
    rows: &[OutRow],
    judgements: &[Judgement],
    entries: &[Option<Claim>],
) -> Result<Taken, OutOfMemory> {
    let mut added: Vec<Judgement> = Vec::new(alloc);
    let mut known = 0u32;
    let mut skipped = 0u32;
    for entry in entries {
        match judgement(alloc, rows, entry)? {
            None => skipped = skipped.saturating_add(1),
            Some(judgement) => {
                let stood = judgements.iter().any(|one| *one == judgement);
                if stood || added.iter().any(|one| *one == judgement) {
                    known = known.saturating_add(1);
                } else {
                    added.push(judgement)?;
                }
            }
        }
    }
    Ok(Taken {
        added: List::from_vec(added),
        known,
        skipped,
    })
}
