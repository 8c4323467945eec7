//! Cases read by many threads that share nothing.

ghost use Rattle.std.specs.Prelude.{◌≡◌, ◌<◌, ◌++◌, IfOk, IsOkAnd};
ghost use Rattle.std.specs.Thread.{IsSync};
ghost use Rattle.case_run.specs.Faults.{Gives};
ghost use Rattle.case_run.specs.Apart.{alone, AreAlone};

use crate::case::Case;
use crate::fault::CasesFault;
use crate::members::case_at;
use crate::straight::case_straight;
use audit::share;
use json_parts::read_part;
use rule_core::RuleInfo;
use std::alloc::Global;
use std::thread::{Threads, join};

// How many bytes of memory a byte of a list takes at the most, or nearly: where its pages are small elements alone.
const ROOM: usize = 16;

/// The cases that texts are, each by itself, in their order. At most so many threads read them: a new one reads its share, and
/// this thread shares the others out.
#[cycle(sharing)]
pub(crate) fn read_parts<R: Threads + Sync>(
    rt: &R,
    alloc: &Global,
    threads: usize,
    infos: &[RuleInfo],
    parts: &[&[u8]],
) -> Result<Vec<Case>, CasesFault>
    requires { 0 < threads }
    ensures { IfOk result (λ cases. AreAlone infos.now parts.now cases.items) }
{
    if threads == 1 {
        return read_in_turn(*alloc, infos, parts);
    }
    let rest = threads - 1;
    let (ones, others) = parts.split_at(share(parts.len(), threads));
    let first = || -> Result<Vec<Case>, CasesFault>
        ensures { IfOk result (λ cases. AreAlone infos.entry.now ones.entry.now cases.items) }
    { read_in_turn(*alloc, infos, ones) };
    let later = || -> Result<Vec<Case>, CasesFault>
        requires sync { IsSync R.row }
        requires some { 0 < rest }
        ensures { IfOk result (λ cases. AreAlone infos.entry.now others.entry.now cases.items) }
    { read_parts(rt, alloc, rest, infos, others) };
    let (first, later) = join(rt, first, later);
    joined(first, later)
}

// The cases of two parts.
fn joined(
    first: Result<Vec<Case>, CasesFault>,
    later: Result<Vec<Case>, CasesFault>,
) -> Result<Vec<Case>, CasesFault>
    ensures { IfOk result (λ all. IsOkAnd first (λ a. IsOkAnd later (λ b. all.items ≡ a.items ++ b.items))) }
{
    let mut all = first?;
    let mut others = later?;
    all.append(&mut others)?;
    Ok(all)
}

// The cases of texts, one after another.
fn read_in_turn(alloc: Global, infos: &[RuleInfo], parts: &[&[u8]]) -> Result<Vec<Case>, CasesFault>
    ensures { IfOk result (λ cases. AreAlone infos.now parts.now cases.items) }
{
    take_room(alloc, bytes_in(parts).saturating_mul(ROOM));
    let mut cases = Vec::with_capacity(alloc, parts.len())?;
    for part in parts {
        match read_alone(alloc, infos, part) {
            Ok(case) => cases.push(case)?,
            Err(fault) => return Err(fault),
        }
    }
    Ok(cases)
}

// Has this thread's memory grow by so many bytes at once. The C library has it grow by a page at a time, and for each the system
// holds up all threads that ask it for memory. What was taken and given back stays the thread's; where the first block is too
// large for that and comes from the system, the second isn't.
fn take_room(alloc: Global, bytes: usize) {
    for _ in 0..2 {
        let _room = Vec::<u8>::with_capacity(alloc, bytes);
    }
}

// How many bytes texts have.
fn bytes_in(parts: &[&[u8]]) -> usize {
    let mut bytes = 0usize;
    for part in parts {
        bytes = bytes.saturating_add(part.len());
    }
    bytes
}

// The case that a text is by itself: straight from the text where that is what cases mostly are, and else by its value.
fn read_alone(alloc: Global, infos: &[RuleInfo], part: &[u8]) -> Result<Case, CasesFault>
    ensures { Gives result (alone infos.now part.now) }
{
    match case_straight(alloc, infos, part)? {
        Some(case) => Ok(case),
        None => read_value(alloc, infos, part),
    }
}

fn read_value(alloc: Global, infos: &[RuleInfo], part: &[u8]) -> Result<Case, CasesFault>
    ensures { Gives result (alone infos.now part.now) }
{
    match read_part(alloc, part)? {
        Some(value) => case_at(alloc, infos, &[], 1, &value),
        None => Err(CasesFault::NotJson),
    }
}
