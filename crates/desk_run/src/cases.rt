ghost use Rattle.std.specs.Prelude.{◌≡◌, ℕ, ◌<◌, ◌+◌, ◌≤◌, List, length, map, sum, Ok, IfOk};
ghost use Rattle.streams.specs.Streams.{ReadsAtMost};
ghost use Rattle.audit_run.specs.declared.auditing.TheConstants.{MOST_READ};
ghost use Rattle.audit_run.specs.Telling.{status_of, writing_of};
ghost use Rattle.case_run.specs.Grades.{cases_judgings};
ghost use Rattle.desk_run.specs.Cases.{cases_by, table_of, finds_wrong, read_judgings, IsFoundIn, CasesCause};

use audit_run::{Found, MOST_READ};
use case_run::{
    Case, CasesFault, case_table, cases_line, has_wrong, let_go, read_cases, run_cases,
};
use judge_core::infos_of;
use rule_core::{RuleBook, RuleInfo};
use snap_tree::{List, OutOfMemory};
use std::alloc::Global;
use std::thread::Threads;
use streams::{ReadFault, Source, read_all};

/// Reads a list of test cases to the end of the source, or to the 8,388,609th byte, audits their pages by all books, and
/// gives the table of their grades.
#[tactic(auto, using(crate::proofs::CaseCauses::caused, crate::proofs::CaseCauses::unread, crate::proofs::CaseCauses::no_room))]
pub fn cases<R: Threads + Sync, I: Source, B: RuleBook + Send>(
    rt: &R,
    alloc: Global,
    input: &mut I,
    books: &mut [B],
) -> Found
    requires { 0 < length books.old }
    ensures cause { CasesCause B.book (I.told input.old) (I.told input.new)
        (sum (map B.calls books.old)) (sum (map B.calls books.new)) (status_of result) (writing_of result) }
    ensures never_falls { (I.told input.old).faults ≤ (I.told input.new).faults }
    ensures stops { ReadsAtMost MOST_READ (I.told input.old) (I.told input.new) }
{
    match read_all(alloc, input, MOST_READ) {
        Ok(bytes) => found_in(rt, alloc, bytes.as_slice(), books),
        Err(ReadFault::Failed) => Found::ReadFault,
        Err(ReadFault::OutOfMemory) => Found::NoMemory,
    }
}

// What is found in bytes.
fn found_in<R: Threads + Sync, B: RuleBook + Send>(
    rt: &R,
    alloc: Global,
    bytes: &[u8],
    books: &mut [B],
) -> Found
    requires { 0 < length books.old }
    ensures found { IsFoundIn B.book bytes.now result }
    ensures counted { sum (map B.calls books.new)
        ≤ sum (map B.calls books.old) + read_judgings B.book (cases_by B.book bytes.now) }
{
    match infos_of(alloc, &books[0]) {
        Ok(infos) => found_by(rt, alloc, infos.as_slice(), bytes, books),
        Err(OutOfMemory) => Found::NoMemory,
    }
}

// What is found in bytes by books of these infos.
fn found_by<R: Threads + Sync, B: RuleBook + Send>(
    rt: &R,
    alloc: Global,
    infos: &[RuleInfo],
    bytes: &[u8],
    books: &mut [B],
) -> Found
    requires some { 0 < length books.old }
    requires infos { infos.now ≡ B.book.infos }
    ensures found { IsFoundIn B.book bytes.now result }
    ensures counted { sum (map B.calls books.new)
        ≤ sum (map B.calls books.old) + read_judgings B.book (cases_by B.book bytes.now) }
{
    match read_cases(rt, alloc, books.len(), infos, bytes) {
        Ok(cases) => {
            let found = found_of(rt, alloc, infos, cases.as_slice(), books);
            let_go(rt, books.len(), cases);
            found
        }
        Err(CasesFault::OutOfMemory) => Found::NoMemory,
        Err(fault) => match cases_line(alloc, fault) {
            Ok(line) => Found::NotSnapshot { line },
            Err(OutOfMemory) => Found::NoMemory,
        },
    }
}

// What is found in bytes that are these cases.
fn found_of<R: Threads + Sync, B: RuleBook + Send>(
    rt: &R,
    alloc: Global,
    infos: &[RuleInfo],
    cases: &[Case],
    books: &mut [B],
) -> Found
    requires some { 0 < length books.old }
    requires infos { infos.now ≡ B.book.infos }
    ensures found { (bytes : List ℕ) → cases_by B.book bytes ≡ Ok cases.now → IsFoundIn B.book bytes result }
    ensures counted { sum (map B.calls books.new) ≤ sum (map B.calls books.old) + cases_judgings B.book cases.now }
{
    match tabled(rt, alloc, infos, cases, books) {
        Ok((output, failed)) => Found::Finished { output, failed },
        Err(OutOfMemory) => Found::NoMemory,
    }
}

// The table of what the books find of cases, and whether some outcome is another than was expected.
fn tabled<R: Threads + Sync, B: RuleBook + Send>(
    rt: &R,
    alloc: Global,
    infos: &[RuleInfo],
    cases: &[Case],
    books: &mut [B],
) -> Result<(List<u8>, bool), OutOfMemory>
    requires some { 0 < length books.old }
    requires infos { infos.now ≡ B.book.infos }
    ensures table { IfOk result (λ r. r.0 ≡ table_of B.book cases.now) }
    ensures wrong { IfOk result (λ r. r.1 ≡ finds_wrong B.book cases.now) }
    ensures counted { sum (map B.calls books.new) ≤ sum (map B.calls books.old) + cases_judgings B.book cases.now }
{
    let graded = run_cases(rt, alloc, books, cases)?;
    let table = case_table(alloc, infos, cases, graded.as_slice())?;
    let wrong = has_wrong(graded.as_slice());
    Ok((List::from_vec(table), wrong))
}
