ghost use Rattle.std.specs.Prelude.{◌≡◌, IfOk};
ghost use Rattle.serde_json.specs.View.{view};
ghost use Rattle.earl_in.specs.Entries.{claim_of};

use crate::claim::Claim;
use crate::words::{digest_of, is_by_person, node_of, note_of, reference_of, rule_of, verdict_of};
use rule_core::RuleInfo;
use serde_json::Value;
use snap_tree::OutOfMemory;
use std::alloc::Global;

/// The claim that an entry is, for the rules of these infos; None where it is none. Fails only for want of memory.
#[tactic(auto, unfolding(crate::specs::Entries::claim_of))]
pub(crate) fn claim_of(
    alloc: Global,
    infos: &[RuleInfo],
    entry: &Value,
) -> Result<Option<Claim>, OutOfMemory>
    ensures { IfOk result (λ claim. claim ≡ claim_of infos.now (view entry.now)) }
{
    let Some(subject) = reference_of(alloc, entry.get("earl:subject"))? else {
        return Ok(None);
    };
    let Some(rule) = rule_of(alloc, infos, entry.get("earl:test"))? else {
        return Ok(None);
    };
    if !is_by_person(alloc, entry.get("earl:mode"))? {
        return Ok(None);
    }
    let Some(result) = entry.get("earl:result") else {
        return Ok(None);
    };
    let Some(verdict) = verdict_of(alloc, result.get("earl:outcome"))? else {
        return Ok(None);
    };
    let Some(node) = node_of(result.get("earl:pointer")) else {
        return Ok(None);
    };
    let Some(digest) = digest_of(result.get("earl:info")) else {
        return Ok(None);
    };
    let Some(note) = note_of(alloc, result.get("earl:info"))? else {
        return Ok(None);
    };
    Ok(Some(Claim {
        subject,
        rule,
        node,
        verdict,
        digest,
        note,
    }))
}
