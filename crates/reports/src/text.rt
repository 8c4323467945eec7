ghost use Rattle.std.specs.Prelude.{◌≡◌, ◌≤◌, [], length, codes, ◌++◌, ◌&&◌, if◌then◌else◌, IfOk, OnOk};
ghost use Rattle.std.specs.String.{string_bytes};
ghost use Rattle.std.specs.List.{flat_map, list_any};
ghost use Rattle.reports.specs.TextReport.{text_report, first_line, rule_lines, is_of, of_rule, is_inapplicable, is_known, outcome_word, node_line, row_line, totals, counted, totals_line, is_outcome, count_of, inapplicable};

use crate::pushing::push;
use judge_core::{OutRow, Outcomes};
use rule_core::{Auto, RuleInfo};
use snap_tree::{OutOfMemory, Text};
use std::alloc::Global;

/// The text report of a page by the rules of these infos: its address, the lines of each rule in turn,
/// and how many final outcomes are passed, failed and cantTell, and how many rules are inapplicable. The
/// rows of a rule come in the order of the outcomes; a row of none of the rules is passed over. Fails
/// only for want of memory.
#[tactic(auto, unfolding(crate::specs::TextReport::text_report))]
pub fn text_report(
    alloc: Global,
    address: &Text,
    infos: &[RuleInfo],
    rows: &Outcomes,
) -> Result<Vec<u8>, OutOfMemory>
    ensures { IfOk result (λ report. report.items ≡ text_report address.now infos.now rows.now.rows) }
{
    let rows = rows.rows.as_slice();
    let mut report = first_line(alloc, address)?;
    push_rules(alloc, &mut report, infos, rows)?;
    push(&mut report, totals(alloc, infos, rows)?.as_bytes())?;
    Ok(report)
}

fn first_line(alloc: Global, address: &Text) -> Result<Vec<u8>, OutOfMemory>
    ensures { IfOk result (λ line. line.items ≡ first_line address.now) }
{
    let mut line = Vec::from_slice(alloc, b"page ")?;
    push(&mut line, address.as_str().as_bytes())?;
    push(&mut line, b"\n")?;
    Ok(line)
}

// Adds the lines of each rule.
fn push_rules(
    alloc: Global,
    report: &mut Vec<u8>,
    infos: &[RuleInfo],
    rows: &[OutRow],
) -> Result<(), OutOfMemory>
    ensures { OnOk result (report.new.items ≡ report.old.items ++ flat_map (rule_lines rows.now) infos.now) }
{
    for info in infos {
        push_rule(alloc, report, info, rows)?;
    }
    Ok(())
}

// Adds the lines of a rule.
fn push_rule(
    alloc: Global,
    report: &mut Vec<u8>,
    info: &RuleInfo,
    rows: &[OutRow],
) -> Result<(), OutOfMemory>
    ensures { OnOk result (report.new.items ≡ report.old.items ++ rule_lines rows.now info.now) }
{
    if is_inapplicable(rows, info) {
        return push_line(report, &info.id, b" inapplicable\n");
    }
    push_rows(alloc, report, info, rows)
}

// Adds the lines of a rule's rows.
fn push_rows(
    alloc: Global,
    report: &mut Vec<u8>,
    info: &RuleInfo,
    rows: &[OutRow],
) -> Result<(), OutOfMemory>
    ensures { OnOk result (report.new.items
        ≡ report.old.items ++ flat_map (λ row. info.now.id ++ row_line row) (of_rule rows.now info.now)) }
{
    for row in rows {
        push_row(alloc, report, info, row)?;
    }
    Ok(())
}

// Adds the line of a row, where it is of the rule.
fn push_row(
    alloc: Global,
    report: &mut Vec<u8>,
    info: &RuleInfo,
    row: &OutRow,
) -> Result<(), OutOfMemory>
    ensures { OnOk result (report.new.items
        ≡ report.old.items ++ (if is_of info.now row.now then info.now.id ++ row_line row.now else [])) }
{
    if !is_of(info, row) {
        return Ok(());
    }
    let line = row_line(alloc, row)?;
    push_line(report, &info.id, line.as_bytes())
}

/// Whether a row is of a rule.
pub fn is_of(info: &RuleInfo, row: &OutRow) -> bool
    ensures { result ≡ is_of info.now row.now }
{
    row.rule.0 == info.no.0
}

/// Whether no row is of the rule.
pub fn is_inapplicable(rows: &[OutRow], info: &RuleInfo) -> bool
    ensures { result ≡ is_inapplicable rows.now info.now }
{
    !has_row(rows, info)
}

fn has_row(rows: &[OutRow], info: &RuleInfo) -> bool
    ensures { result ≡ list_any (is_of info.now) rows.now }
{
    rows.iter().any(|row| is_of(info, row))
}

// Adds a rule's id and what follows it.
fn push_line(report: &mut Vec<u8>, id: &[u8], text: &[u8]) -> Result<(), OutOfMemory>
    ensures { OnOk result (report.new.items ≡ report.old.items ++ (id.now ++ text.now)) }
{
    push(report, id)?;
    push(report, text)
}

/// The word of an outcome.
pub fn outcome_word(outcome: Auto) -> &'static str
    ensures word { result.now ≡ outcome_word outcome }
    ensures short { length result.now ≤ 8 }
{
    match outcome {
        Auto::Passed => "passed",
        Auto::Failed => "failed",
        Auto::CantTell => "cantTell",
    }
}

// The line of a node, after the rule's id.
fn node_line(alloc: Global, n: u32, outcome: &str, why: &str) -> Result<String, OutOfMemory>
    ensures { IfOk result (λ t. string_bytes t ≡ node_line n outcome.now why.now) }
{
    Ok(format!(in alloc; " node {n} {outcome} {why}\n")?)
}

// The line of a row, after the rule's id.
fn row_line(alloc: Global, row: &OutRow) -> Result<String, OutOfMemory>
    ensures { IfOk result (λ t. string_bytes t ≡ row_line row.now) }
{
    let n = row.node.0;
    let outcome = outcome_word(row.last);
    if row.hand.is_empty() {
        return node_line(alloc, n, outcome, row.reason.word());
    }
    let judge = judge(alloc, &row.hand)?;
    node_line(alloc, n, outcome, judge.as_str())
}

fn judge(alloc: Global, hand: &Text) -> Result<String, OutOfMemory>
    ensures { IfOk result (λ t. string_bytes t ≡ codes "judged by " ++ hand.now) }
{
    let hand = hand.as_str();
    Ok(format!(in alloc; "judged by {hand}")?)
}

// The last line.
fn totals(alloc: Global, infos: &[RuleInfo], rows: &[OutRow]) -> Result<String, OutOfMemory>
    ensures { IfOk result (λ t. string_bytes t ≡ totals infos.now rows.now) }
{
    totals_line(
        alloc,
        count_of(Auto::Passed, infos, rows),
        count_of(Auto::Failed, infos, rows),
        count_of(Auto::CantTell, infos, rows),
        inapplicable(infos, rows),
    )
}

/// The line of sums.
pub fn totals_line(
    alloc: Global,
    passed: usize,
    failed: usize,
    cant_tell: usize,
    inapplicable: usize,
) -> Result<String, OutOfMemory>
    ensures { IfOk result
        (λ t. string_bytes t ≡ totals_line passed failed cant_tell inapplicable) }
{
    let passed = counted(alloc, "passed", passed)?;
    let failed = counted(alloc, "failed", failed)?;
    let cant_tell = counted(alloc, "cantTell", cant_tell)?;
    let inapplicable = counted(alloc, "inapplicable", inapplicable)?;
    Ok(format!(in alloc; "{passed} {failed} {cant_tell} {inapplicable}\n")?)
}

#[tactic(auto, unfolding(crate::specs::TextReport::counted))]
fn counted(alloc: Global, word: &str, n: usize) -> Result<String, OutOfMemory>
    ensures { IfOk result (λ t. string_bytes t ≡ counted word.now n) }
{
    Ok(format!(in alloc; "{word} {n}")?)
}

/// Whether an outcome is the one that is wanted.
pub fn is_outcome(wanted: Auto, outcome: Auto) -> bool
    ensures { result ≡ is_outcome wanted outcome }
{
    wanted == outcome
}

/// Whether a row is of one of the rules.
pub fn is_known(infos: &[RuleInfo], row: &OutRow) -> bool
    ensures { result ≡ is_known infos.now row.now }
{
    infos.iter().any(|info| is_of(info, row))
}

// Whether a row of one of the rules has this final outcome.
fn is_counted(outcome: Auto, infos: &[RuleInfo], row: &OutRow) -> bool
    ensures { result ≡ (is_outcome outcome row.now.last && is_known infos.now row.now) }
{
    is_outcome(outcome, row.last) && is_known(infos, row)
}

/// How many rows of these rules have this final outcome.
pub fn count_of(outcome: Auto, infos: &[RuleInfo], rows: &[OutRow]) -> usize
    ensures { result ≡ count_of outcome infos.now rows.now }
{
    rows.iter()
        .filter(|row| is_counted(outcome, infos, row))
        .count()
}

/// How many of the rules are inapplicable.
pub fn inapplicable(infos: &[RuleInfo], rows: &[OutRow]) -> usize
    ensures { result ≡ inapplicable infos.now rows.now }
{
    infos
        .iter()
        .filter(|info| is_inapplicable(rows, info))
        .count()
}
