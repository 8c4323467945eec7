ghost use Rattle.std.specs.Prelude.{◌≡◌, ◌&&◌};
ghost use Rattle.std.specs.List.{list_any};
ghost use Rattle.case_run.specs.Words.{actual_word, grade_word};
ghost use Rattle.case_run.specs.Grades.{is_of, is_auto, has_auto, actual_of, compared, grade_of, is_grade, graded_by, has_wrong};

use crate::case::{Case, Expected};
use judge_core::{OutRow, Outcomes};
use rule_core::{Auto, RuleNo};

/// What is found of a rule on a page: by its worst automatic outcome, of which failed is worse than cantTell, and that worse
/// than passed.
#[derive(Clone, Copy, Debug, PartialEq, Eq, Hash)]
pub enum Actual {
    Passed,
    Failed,
    /// A person has to judge.
    CantTell,
    /// The page has no target of the rule.
    Inapplicable,
}

/// How an outcome compares with the expected one.
#[derive(Clone, Copy, Debug, PartialEq, Eq, Hash)]
pub enum Grade {
    /// It is the expected one.
    Correct,
    /// A person has to judge.
    Untold,
    /// It is another.
    Wrong,
}

/// What is found of a case.
#[derive(Clone, Copy, Debug, PartialEq, Eq, Hash)]
pub struct Graded {
    pub actual: Actual,
    pub grade: Grade,
}

impl Actual {
    /// The word of the outcome.
    pub fn word(self) -> &'static str
        ensures { result.now ≡ actual_word self }
    {
        match self {
            Actual::Passed => "passed",
            Actual::Failed => "failed",
            Actual::CantTell => "cantTell",
            Actual::Inapplicable => "inapplicable",
        }
    }
}

impl Grade {
    /// The word of the grade, in lower case.
    pub fn word(self) -> &'static str
        ensures { result.now ≡ grade_word self }
    {
        match self {
            Grade::Correct => "correct",
            Grade::Untold => "untold",
            Grade::Wrong => "wrong",
        }
    }
}

/// What is found of a case whose tree has these outcomes.
pub(crate) fn graded_by(case: &Case, outcomes: &Outcomes) -> Graded
    ensures { result ≡ graded_by case.now outcomes.now.rows }
{
    let actual = actual_of(case.rule, outcomes.rows.as_slice());
    Graded {
        actual,
        grade: grade_of(case.expected, actual),
    }
}

// The actual outcome over the rows of a rule.
fn actual_of(rule: RuleNo, rows: &[OutRow]) -> Actual
    ensures { result ≡ actual_of rule rows.now }
{
    if has_auto(rule, Auto::Failed, rows) {
        Actual::Failed
    } else if has_auto(rule, Auto::CantTell, rows) {
        Actual::CantTell
    } else if has_row(rule, rows) {
        Actual::Passed
    } else {
        Actual::Inapplicable
    }
}

fn has_auto(rule: RuleNo, wanted: Auto, rows: &[OutRow]) -> bool
    ensures { result ≡ has_auto rule wanted rows.now }
{
    rows.iter().any(|row| is_found(rule, wanted, row))
}

fn is_found(rule: RuleNo, wanted: Auto, row: &OutRow) -> bool
    ensures { result ≡ (is_of rule row.now && is_auto wanted row.now.auto) }
{
    is_of(rule, row) && is_auto(wanted, row.auto)
}

fn is_auto(wanted: Auto, found: Auto) -> bool
    ensures { result ≡ is_auto wanted found }
{
    wanted == found
}

fn has_row(rule: RuleNo, rows: &[OutRow]) -> bool
    ensures { result ≡ list_any (is_of rule) rows.now }
{
    rows.iter().any(|row| is_of(rule, row))
}

fn is_of(rule: RuleNo, row: &OutRow) -> bool
    ensures { result ≡ is_of rule row.now }
{
    row.rule.0 == rule.0
}

fn grade_of(expected: Expected, found: Actual) -> Grade
    ensures { result ≡ grade_of expected found }
{
    match found {
        Actual::CantTell => Grade::Untold,
        _ => compared(expected, found),
    }
}

fn compared(expected: Expected, found: Actual) -> Grade
    ensures { result ≡ compared expected found }
{
    if found.word() == expected.word() {
        Grade::Correct
    } else {
        Grade::Wrong
    }
}

/// Whether a grade is the one that is wanted.
pub(crate) fn is_grade(wanted: Grade, found: Grade) -> bool
    ensures { result ≡ is_grade wanted found }
{
    wanted == found
}

/// Whether some grade is Wrong.
pub fn has_wrong(graded: &[Graded]) -> bool
    ensures { result ≡ has_wrong graded.now }
{
    graded
        .iter()
        .any(|graded| is_grade(Grade::Wrong, graded.grade))
}
