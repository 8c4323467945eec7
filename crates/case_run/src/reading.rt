ghost use Rattle.std.specs.Prelude.{◌≡◌, ◌<◌, [], nat_le, option_map};
ghost use Rattle.serde_json.specs.View.{view, items_view};
ghost use Rattle.snap_json.specs.Seen.{seen};
ghost use Rattle.case_run.specs.Faults.{Gives, Answers};
ghost use Rattle.case_run.specs.Cases.{is_count, some_few, cases_from, cases_of, cases_in};

use crate::apart::cases_apart;
use crate::case::Case;
use crate::fault::{CaseField, CasesFault};
use crate::limits::{MOST_CASES, MOST_CASES_BYTES};
use crate::members::{case_at, in_shape};
use rule_core::RuleInfo;
use serde_json::Value;
use snap_json::json_of;
use snap_tree::List;
use std::alloc::Global;
use std::thread::Threads;

/// Reads a list of cases of the rules of these infos: an object whose `cases` are a list of 1 to 64, each an object with an
/// `id`, a name that no earlier case has, the id of a `rule`, atomic or composite, the outcome that is `expected`, and a
/// `snapshot`. Of several faults the first is answered: TooLong, NotJson, Shape with place 0, and then of each case in turn
/// Shape with its place and its first bad field, or the fault of its snapshot, as `read_snapshot` has it.
///
/// At most so many threads read the cases side by side where each is free of faults and `cases` is the one member; else one reads
/// the whole.
#[tactic(auto, using(crate::proofs::Answering::answers))]
pub fn read_cases<R: Threads + Sync>(
    rt: &R,
    alloc: Global,
    threads: usize,
    infos: &[RuleInfo],
    bytes: &[u8],
) -> Result<List<Case>, CasesFault>
    requires { 0 < threads }
    ensures { Answers result (cases_in infos.now bytes.now) }
{
    match cases_apart(rt, alloc, threads, infos, bytes) {
        Ok(cases) => Ok(cases),
        Err(CasesFault::OutOfMemory) => Err(CasesFault::OutOfMemory),
        Err(_) => cases_in(alloc, infos, bytes),
    }
}

#[tactic(auto, unfolding(crate::specs::Cases::cases_in))]
fn cases_in(alloc: Global, infos: &[RuleInfo], bytes: &[u8]) -> Result<List<Case>, CasesFault>
    ensures { Gives result (cases_in infos.now bytes.now) }
{
    if !is_within(bytes.len()) {
        return Err(CasesFault::TooLong);
    }
    match json_of(alloc, bytes)? {
        Some(value) => cases_of(alloc, infos, &value),
        None => Err(CasesFault::NotJson),
    }
}

/// Whether a list may have so many bytes.
pub(crate) fn is_within(len: usize) -> bool
    ensures { result ≡ nat_le len MOST_CASES_BYTES }
{
    len <= MOST_CASES_BYTES
}

// The cases of an object whose `cases` are a list of 1 to 64.
#[tactic(auto, unfolding(crate::specs::Cases::cases_of))]
fn cases_of(alloc: Global, infos: &[RuleInfo], value: &Value) -> Result<List<Case>, CasesFault>
    ensures { Gives result (cases_of infos.now (view value.now)) }
{
    in_shape(0, CaseField::Top, value.as_object())?;
    let cases = some_few(value.get("cases"));
    let cases = in_shape(0, CaseField::Cases, cases)?;
    each_case(alloc, infos, cases)
}

// A list of 1 to 64 values.
#[tactic(auto, using(crate::proofs::Listed::many_view))]
fn some_few(member: Option<&Value>) -> Option<&[Value]>
    ensures { option_map (λ vs. items_view vs.now) result ≡ some_few (seen member.entry) }
{
    let values = member?.as_array()?;
    if is_count(values.len()) {
        Some(values.as_slice())
    } else {
        None
    }
}

/// Whether a list may have so many cases.
pub(crate) fn is_count(n: usize) -> bool
    ensures { result ≡ is_count n }
{
    1 <= n && n <= MOST_CASES
}

// The cases of a list, in its order.
fn each_case(alloc: Global, infos: &[RuleInfo], cases: &[Value]) -> Result<List<Case>, CasesFault>
    ensures { Gives result (cases_from infos.now [] 1 (items_view cases.now)) }
{
    let mut found = Vec::new(alloc);
    let mut place = 1u32;
    for value in cases {
        match case_at(alloc, infos, found.as_slice(), place, value) {
            Ok(case) => found.push(case)?,
            Err(fault) => return Err(fault),
        }
        place = place.saturating_add(1);
    }
    Ok(List::from_vec(found))
}
