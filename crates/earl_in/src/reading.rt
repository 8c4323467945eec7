ghost use Rattle.std.specs.Prelude.{◌≡◌, nat_le, option_map, IfOk};
ghost use Rattle.serde_json.specs.View.{view, items_view};
ghost use Rattle.snap_json.specs.Seen.{seen};
ghost use Rattle.earl_in.specs.Reading.{unless_absent, graph_of, claims_in, read_earl, Gives, Answers};

use crate::claim::{Claim, EarlFault};
use crate::entry::claim_of;
use crate::limits::MOST_CLAIMS;
use rule_core::RuleInfo;
use serde_json::Value;
use snap_tree::{List, OutOfMemory};
use std::alloc::Global;

/// Reads EARL 1.0 in JSON-LD, for the rules of these infos: an object whose `@graph` is a list of at most 10,000 entries. The
/// answer has a member for each entry: its claim, or None where it is to be skipped. The faults are Body where the value is no
/// object, and Graph where its member `@graph` isn't such a list.
#[tactic(auto, using(crate::proofs::Answering::answers))]
pub fn read_earl(
    alloc: Global,
    infos: &[RuleInfo],
    body: &Value,
) -> Result<List<Option<Claim>>, EarlFault>
    ensures { Answers result (read_earl infos.now (view body.now)) }
{
    claims_of(alloc, infos, body)
}

#[tactic(auto, unfolding(crate::specs::Reading::read_earl))]
fn claims_of(
    alloc: Global,
    infos: &[RuleInfo],
    body: &Value,
) -> Result<List<Option<Claim>>, EarlFault>
    ensures { Gives result (read_earl infos.now (view body.now)) }
{
    unless_absent(EarlFault::Body, body.as_object())?;
    let entries = unless_absent(EarlFault::Graph, graph_of(body.get("@graph")))?;
    Ok(claims_in(alloc, infos, entries)?)
}

fn unless_absent<T>(fault: EarlFault, found: Option<T>) -> Result<T, EarlFault>
    ensures { result ≡ unless_absent fault found }
{
    match found {
        Some(value) => Ok(value),
        None => Err(fault),
    }
}

// A list of at most 10,000 entries.
#[tactic(auto, using(crate::proofs::Listed::many_view))]
fn graph_of(member: Option<&Value>) -> Option<&[Value]>
    ensures { option_map (λ vs. items_view vs.now) result ≡ graph_of (seen member.entry) }
{
    let entries = member?.as_array()?;
    if is_few(entries.len()) {
        Some(entries.as_slice())
    } else {
        None
    }
}

fn is_few(count: usize) -> bool
    ensures { result ≡ nat_le count MOST_CLAIMS }
{
    count <= MOST_CLAIMS
}

// The claim of each entry, in their order.
fn claims_in(
    alloc: Global,
    infos: &[RuleInfo],
    entries: &[Value],
) -> Result<List<Option<Claim>>, OutOfMemory>
    ensures { IfOk result (λ claims. claims ≡ claims_in infos.now (items_view entries.now)) }
{
    let mut claims = Vec::with_capacity(alloc, entries.len())?;
    for entry in entries {
        claims.push(claim_of(alloc, infos, entry)?)?;
    }
    Ok(List::from_vec(claims))
}
