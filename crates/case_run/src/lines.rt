//! The lines of the table of cases.

ghost use Rattle.std.specs.Prelude.{◌≡◌, ◌++◌, IfOk, OnOk, option_copied};
ghost use Rattle.std.specs.List.{flat_map};
ghost use Rattle.std.specs.String.{string_bytes};
ghost use Rattle.rule_core.specs.Infos.{info_of};
ghost use Rattle.case_run.specs.Table.{rule_id, case_front, case_end, case_line, sums, rule_line, rule_lines_of, rule_lines, total_line, case_lines, sums_table, case_table};

use crate::case::{Case, Expected};
use crate::grading::{Grade, Graded};
use crate::marks::{Mark, count_of, fares_of, marks_of, marks_under};
use rule_core::{RuleInfo, RuleNo};
use snap_tree::OutOfMemory;
use std::alloc::Global;

/// The table of cases with their grades, each with its own: a line of each case, `case ID RULE expected X actual Y GRADE`, of
/// each rule that has a case, in the order of the infos, `rule RULE cases N correct A untold B wrong C RESULT`, and of all,
/// `total cases N correct A untold B wrong C`. Fails only for want of memory.
#[tactic(auto, unfolding(crate::specs::Table::case_table))]
pub fn case_table(
    alloc: Global,
    infos: &[RuleInfo],
    cases: &[Case],
    graded: &[Graded],
) -> Result<Vec<u8>, OutOfMemory>
    ensures { IfOk result (λ table. table.items ≡ case_table infos.now cases.now graded.now) }
{
    let mut table = case_lines(alloc, infos, cases, graded)?;
    let marks = marks_of(alloc, cases, graded)?;
    let sums = sums_table(alloc, infos, marks.as_slice())?;
    push(&mut table, sums.as_slice())?;
    Ok(table)
}

// The lines of the cases.
fn case_lines(
    alloc: Global,
    infos: &[RuleInfo],
    cases: &[Case],
    graded: &[Graded],
) -> Result<Vec<u8>, OutOfMemory>
    ensures { IfOk result (λ lines. lines.items ≡ case_lines infos.now cases.now graded.now) }
{
    let mut lines = Vec::new(alloc);
    for (case, graded) in cases.iter().zip(graded) {
        let line = case_line(alloc, infos, case, graded)?;
        push(&mut lines, line.as_slice())?;
    }
    Ok(lines)
}

// The line of a case.
fn case_line(
    alloc: Global,
    infos: &[RuleInfo],
    case: &Case,
    graded: &Graded,
) -> Result<Vec<u8>, OutOfMemory>
    ensures { IfOk result (λ line. line.items ≡ case_line infos.now case.now graded.now) }
{
    let mut line = case_front(alloc, infos, case)?;
    let end = case_end(alloc, case.expected, graded)?;
    push(&mut line, end.as_bytes())?;
    Ok(line)
}

fn case_front(alloc: Global, infos: &[RuleInfo], case: &Case) -> Result<Vec<u8>, OutOfMemory>
    ensures { IfOk result (λ front. front.items ≡ case_front infos.now case.now) }
{
    let mut front = Vec::from_slice(alloc, b"case ")?;
    push(&mut front, case.id.as_str().as_bytes())?;
    push(&mut front, b" ")?;
    push(&mut front, rule_id(infos, case.rule))?;
    Ok(front)
}

fn rule_id(infos: &[RuleInfo], rule: RuleNo) -> &[u8]
    ensures { result.now ≡ rule_id infos.now rule }
{
    match info_of(infos, rule) {
        Some(info) => info.id.as_slice(),
        None => &[],
    }
}

fn info_of(infos: &[RuleInfo], rule: RuleNo) -> Option<&RuleInfo>
    ensures { option_copied result ≡ info_of infos.now rule.0 }
{
    infos.iter().find(|info| rule.0 == info.no.0)
}

fn case_end(alloc: Global, expected: Expected, graded: &Graded) -> Result<String, OutOfMemory>
    ensures { IfOk result (λ end. string_bytes end ≡ case_end expected graded.now) }
{
    let expected = expected.word();
    let actual = graded.actual.word();
    let grade = graded.grade.word();
    Ok(format!(in alloc; " expected {expected} actual {actual} {grade}\n")?)
}

// The lines after those of the cases.
fn sums_table(alloc: Global, infos: &[RuleInfo], marks: &[Mark]) -> Result<Vec<u8>, OutOfMemory>
    ensures { IfOk result (λ table. table.items ≡ sums_table infos.now marks.now) }
{
    let mut table = rules_table(alloc, infos, marks)?;
    let total = total_line(alloc, marks)?;
    push(&mut table, total.as_bytes())?;
    Ok(table)
}

// The lines of the rules that have a case.
fn rules_table(alloc: Global, infos: &[RuleInfo], marks: &[Mark]) -> Result<Vec<u8>, OutOfMemory>
    ensures { IfOk result (λ table. table.items ≡ flat_map (rule_lines marks.now) infos.now) }
{
    let mut table = Vec::new(alloc);
    for info in infos {
        push_rule(alloc, &mut table, info, marks)?;
    }
    Ok(table)
}

// Adds the line of a rule, where it has a case.
fn push_rule(
    alloc: Global,
    table: &mut Vec<u8>,
    info: &RuleInfo,
    marks: &[Mark],
) -> Result<(), OutOfMemory>
    ensures { OnOk result (table.new.items ≡ table.old.items ++ rule_lines marks.now info.now) }
{
    let own = marks_under(alloc, info.no, marks)?;
    push_rule_of(alloc, table, info, own.as_slice())
}

fn push_rule_of(
    alloc: Global,
    table: &mut Vec<u8>,
    info: &RuleInfo,
    marks: &[Mark],
) -> Result<(), OutOfMemory>
    ensures { OnOk result (table.new.items ≡ table.old.items ++ rule_lines_of info.now marks.now) }
{
    if marks.is_empty() {
        return Ok(());
    }
    let line = rule_line(alloc, info, marks)?;
    push(table, line.as_slice())
}

// The line of a rule that has these marks.
fn rule_line(alloc: Global, info: &RuleInfo, marks: &[Mark]) -> Result<Vec<u8>, OutOfMemory>
    ensures { IfOk result (λ line. line.items ≡ rule_line info.now marks.now) }
{
    let sums = sums(alloc, marks)?;
    let mut line = Vec::from_slice(alloc, b"rule ")?;
    push(&mut line, &info.id)?;
    push(&mut line, sums.as_bytes())?;
    push(&mut line, b" ")?;
    push(&mut line, fares_of(marks).word().as_bytes())?;
    push(&mut line, b"\n")?;
    Ok(line)
}

// The last line.
fn total_line(alloc: Global, marks: &[Mark]) -> Result<String, OutOfMemory>
    ensures { IfOk result (λ line. string_bytes line ≡ total_line marks.now) }
{
    let sums = sums(alloc, marks)?;
    Ok(format!(in alloc; "total{sums}\n")?)
}

// How many cases there are, and how many of each grade.
#[tactic(auto, unfolding(crate::specs::Table::sums))]
fn sums(alloc: Global, marks: &[Mark]) -> Result<String, OutOfMemory>
    ensures { IfOk result (λ t. string_bytes t ≡ sums marks.now) }
{
    let cases = marks.len();
    let correct = count_of(Grade::Correct, marks);
    let untold = count_of(Grade::Untold, marks);
    let wrong = count_of(Grade::Wrong, marks);
    Ok(format!(in alloc; " cases {cases} correct {correct} untold {untold} wrong {wrong}")?)
}

fn push(line: &mut Vec<u8>, bytes: &[u8]) -> Result<(), OutOfMemory>
    ensures { OnOk result (line.new.items ≡ line.old.items ++ bytes.now) }
{
    line.extend_from_slice(bytes)?;
    Ok(())
}
