//! A list whose cases are read apart.

ghost use Rattle.std.specs.Prelude.{◌≡◌, ◌<◌, [], Ok, IfOk};
ghost use Rattle.case_run.specs.Cases.{is_new, cases_in};
ghost use Rattle.case_run.specs.Apart.{texts_of, all_new, AreItems};

use crate::case::Case;
use crate::fault::{CaseField, CasesFault};
use crate::letting::read_parts;
use crate::members::is_new;
use crate::reading::{is_count, is_within};
use audit::busy;
use json_parts::cut;
use rule_core::RuleInfo;
use snap_tree::List;
use std::alloc::Global;
use std::thread::Threads;

/// The cases of a list, each read by itself, by at most so many threads. An Err but want of memory says only that the list has a
/// fault or another form than `{"cases":[..]}`: the first fault is told by reading the whole.
#[tactic(auto, using(crate::proofs::Together::together))]
pub(crate) fn cases_apart<R: Threads + Sync>(
    rt: &R,
    alloc: Global,
    threads: usize,
    infos: &[RuleInfo],
    bytes: &[u8],
) -> Result<List<Case>, CasesFault>
    requires { 0 < threads }
    ensures { IfOk result (λ cases. cases_in infos.now bytes.now ≡ Ok cases) }
{
    let parts = items_in(alloc, bytes)?;
    let threads = busy(threads, parts.len());
    let cases = read_parts(rt, &alloc, threads, infos, parts.as_slice())?;
    if are_new(cases.as_slice()) {
        Ok(List::from_vec(cases))
    } else {
        Err(CasesFault::Shape {
            place: 0,
            field: CaseField::Id,
        })
    }
}

// The texts of the items of a list of 1 to 64.
fn items_in(alloc: Global, bytes: &[u8]) -> Result<Vec<&[u8]>, CasesFault>
    ensures { IfOk result (λ parts. AreItems bytes.now (texts_of parts.items)) }
{
    if !is_within(bytes.len()) {
        return Err(CasesFault::TooLong);
    }
    match cut(alloc, "cases", bytes)? {
        Some(parts) if is_count(parts.len()) => Ok(parts),
        _ => Err(CasesFault::NotJson),
    }
}

// Whether each case has another id.
#[tactic(auto, using(crate::proofs::News::new_before, crate::proofs::News::not_new))]
fn are_new(cases: &[Case]) -> bool
    ensures { result ≡ all_new [] cases.now }
{
    let mut rest = cases;
    while let Some((last, earlier)) = rest.split_last() {
        if !is_new(earlier, &last.id) {
            return false;
        }
        rest = earlier;
    }
    true
}
