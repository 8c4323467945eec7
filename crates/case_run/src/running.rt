ghost use Rattle.std.specs.Prelude.{◌≡◌, ◌+◌, ◌<◌, ◌≤◌, length, map, sum_by, IfOk};
ghost use Rattle.std.specs.List.{zip};
ghost use Rattle.case_run.specs.Grades.{graded_by, all_graded, cases_judgings};
ghost use Rattle.case_run.specs.Works.{work_of};

use crate::case::Case;
use crate::grading::{Graded, graded_by};
use audit::{PageWork, audit_pages};
use judge_core::Outcomes;
use rule_core::RuleBook;
use snap_tree::{List, OutOfMemory};
use std::alloc::Global;
use std::thread::Threads;

/// Audits the pages of cases without judgements and grades what is found, in the order of the cases, whatever the number of
/// books: there is at least one. The books audit parts of the pages side by side. The sum of their counts of judgings rises by
/// at most the atomic rules times the nodes of all pages. Fails only for want of memory.
#[tactic(auto, using(crate::proofs::Findings::works_within))]
pub fn run_cases<R: Threads + Sync, B: RuleBook + Send>(
    rt: &R,
    alloc: Global,
    books: &mut [B],
    cases: &[Case],
) -> Result<List<Graded>, OutOfMemory>
    requires { 0 < length books.old }
    ensures graded { IfOk result (λ graded. graded ≡ all_graded B.book cases.now) }
    ensures counted { sum_by B.calls books.new ≤ sum_by B.calls books.old + cases_judgings B.book cases.now }
{
    let works = works_of(alloc, cases)?;
    let outcomes = audit_pages(rt, alloc, books, works.as_slice())?;
    let graded = each_graded(alloc, cases, outcomes.as_slice())?;
    Ok(List::from_vec(graded))
}

// The pages of cases, to be audited without judgements.
fn works_of(alloc: Global, cases: &[Case]) -> Result<Vec<PageWork>, OutOfMemory>
    ensures { IfOk result (λ works. works.items ≡ map work_of cases.now) }
{
    let mut works = Vec::with_capacity(alloc, cases.len())?;
    for case in cases {
        works.push(work_of(alloc, case)?)?;
    }
    Ok(works)
}

// The copy of a tree shares its page in memory.
fn work_of(alloc: Global, case: &Case) -> Result<PageWork, OutOfMemory>
    ensures { IfOk result (λ work. work ≡ work_of case.now) }
{
    Ok(PageWork {
        tree: case.tree.copy()?,
        judgements: List::from_vec(Vec::new(alloc)),
    })
}

// What is found of cases whose trees have these outcomes.
fn each_graded(
    alloc: Global,
    cases: &[Case],
    outcomes: &[Outcomes],
) -> Result<Vec<Graded>, OutOfMemory>
    ensures { IfOk result (λ graded. graded.items ≡ map (λ p. graded_by p.0 p.1.rows) (zip cases.now outcomes.now)) }
{
    let mut graded = Vec::with_capacity(alloc, cases.len())?;
    for (case, found) in cases.iter().zip(outcomes) {
        graded.push(graded_by(case, found))?;
    }
    Ok(graded)
}
