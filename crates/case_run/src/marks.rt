//! What the grades of its cases make of a rule.

ghost use Rattle.std.specs.Prelude.{◌≡◌, IfOk};
ghost use Rattle.std.specs.List.{list_any};
ghost use Rattle.case_run.specs.Words.{fares_word};
ghost use Rattle.case_run.specs.Judged.{mark_of, marks_of, is_under, marks_under, has_grade, count_of, fares_of};

use crate::case::Case;
use crate::grading::{Grade, Graded, is_grade};
use rule_core::RuleNo;
use snap_tree::OutOfMemory;
use std::alloc::Global;

/// The rule of a case, with the case's grade.
#[derive(Clone, Copy, Debug, PartialEq, Eq)]
pub(crate) struct Mark {
    pub rule: RuleNo,
    pub grade: Grade,
}

/// How a book fares with the cases of a rule.
#[derive(Clone, Copy, Debug, PartialEq, Eq)]
pub(crate) enum Fares {
    Consistent,
    Partial,
    Inconsistent,
}

impl Fares {
    /// The word for it, in lower case.
    pub fn word(self) -> &'static str
        ensures { result.now ≡ fares_word self }
    {
        match self {
            Fares::Consistent => "consistent",
            Fares::Partial => "partial",
            Fares::Inconsistent => "inconsistent",
        }
    }
}

/// The marks of cases with their grades, each with its own.
pub(crate) fn marks_of(
    alloc: Global,
    cases: &[Case],
    graded: &[Graded],
) -> Result<Vec<Mark>, OutOfMemory>
    ensures { IfOk result (λ marks. marks.items ≡ marks_of cases.now graded.now) }
{
    let mut marks = Vec::with_capacity(alloc, cases.len())?;
    for (case, graded) in cases.iter().zip(graded) {
        marks.push(mark_of(case, graded))?;
    }
    Ok(marks)
}

fn mark_of(case: &Case, graded: &Graded) -> Mark
    ensures { result ≡ mark_of case.now graded.now }
{
    Mark {
        rule: case.rule,
        grade: graded.grade,
    }
}

/// The marks of a rule.
pub(crate) fn marks_under(
    alloc: Global,
    rule: RuleNo,
    marks: &[Mark],
) -> Result<Vec<Mark>, OutOfMemory>
    ensures { IfOk result (λ own. own.items ≡ marks_under rule marks.now) }
{
    Ok(
        marks
            .iter()
            .copied()
            .filter(|mark| is_under(rule, mark))
            .collect(alloc)?,
    )
}

fn is_under(rule: RuleNo, mark: &Mark) -> bool
    ensures { result ≡ is_under rule mark.now }
{
    mark.rule.0 == rule.0
}

/// How many marks have a grade.
pub(crate) fn count_of(grade: Grade, marks: &[Mark]) -> usize
    ensures { result ≡ count_of grade marks.now }
{
    marks.iter().filter(|mark| has_grade(grade, mark)).count()
}

fn has_grade(grade: Grade, mark: &Mark) -> bool
    ensures { result ≡ has_grade grade mark.now }
{
    is_grade(grade, mark.grade)
}

fn has_some(grade: Grade, marks: &[Mark]) -> bool
    ensures { result ≡ list_any (has_grade grade) marks.now }
{
    marks.iter().any(|mark| has_grade(grade, mark))
}

/// Inconsistent where some case is Wrong, else Partial where some is Untold, else Consistent.
pub(crate) fn fares_of(marks: &[Mark]) -> Fares
    ensures { result ≡ fares_of marks.now }
{
    if has_some(Grade::Wrong, marks) {
        Fares::Inconsistent
    } else if has_some(Grade::Untold, marks) {
        Fares::Partial
    } else {
        Fares::Consistent
    }
}
