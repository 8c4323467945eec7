ghost use Rattle.std.specs.Prelude.{◌≡◌, [], ◌∷◌, ◌++◌, ◌==◌, ◌&&◌, map, IsTrue, if◌then◌else◌, IfOk, OnOk};
ghost use Rattle.std.specs.List.{list_any};
ghost use Rattle.std.specs.Str.{IsUtf8};
ghost use Rattle.std.specs.String.{string_bytes};
ghost use Rattle.json.specs.Token.{key, string, begin_object, end_object, begin_array};
ghost use Rattle.rule_core.specs.Infos.{is_orderly};
ghost use Rattle.reports.specs.declared.term.Term.TheVariants as term;
ghost use Rattle.reports.specs.TextReport.{is_of, of_rule};
ghost use Rattle.reports.specs.Ids.{HaveTexts};
ghost use Rattle.reports.specs.Writing.{tokens_of, all_tokens};
ghost use Rattle.reports.specs.Terms.{text_of, rule_name, user_name, node_name};
ghost use Rattle.reports.specs.Earl.{named, typed, software, user, subject, is_judged, is_input_of, is_judged_input, has_judged_input, mode, asserter, outcome_term, row_result, no_result, row_assertion, no_assertion, rule_assertions, page_assertions, assertions, context, earl};

use crate::graph::{put_named, put_text, put_typed};
use crate::term::Term;
use crate::text::{is_inapplicable, is_of};
use json::Writer;
use judge_core::OutRow;
use keep_core::SitePage;
use rule_core::{Auto, RuleInfo};
use snap_tree::{OutOfMemory, Text};
use std::alloc::Global;
use std::str;

/// The outcomes of some pages as EARL 1.0 in JSON-LD: an assertion for each row and one for each rule that is
/// inapplicable on a page; page by page in the order of the list, rule by rule, and the rows of a rule in the
/// order of the outcomes. Of one page, it is that of a slice of the one. A row of none of the rules of these infos is passed
/// over. Fails only for want of memory.
#[tactic(auto, using(crate::proofs::Ids::have_texts, crate::proofs::Tokens::earl_text), unfolding(crate::specs::Earl::earl_data))]
pub fn earl(alloc: Global, infos: &[RuleInfo], pages: &[SitePage]) -> Result<Vec<u8>, OutOfMemory>
    requires { IsTrue (is_orderly infos.now) }
    ensures { IfOk result (λ report. report.items ≡ earl infos.now pages.now) }
{
    let mut writer = Writer::new(Vec::new(alloc));
    push_front(&mut writer)?;
    push_pages(alloc, &mut writer, infos, pages)?;
    writer.end_array()?;
    writer.end_object()?;
    Ok(writer.into_inner())
}

// Writes what stands before the assertions.
fn push_front(writer: &mut Writer) -> Result<(), OutOfMemory>
    ensures before { OnOk result (writer.new.before ≡ writer.old.before) }
    ensures tokens { OnOk result (writer.new.tokens
        ≡ writer.old.tokens ++ (begin_object ∷ key (text_of term.AtContext) ∷ (tokens_of context ++ (key (text_of term.AtGraph) ∷ begin_array ∷ [])))) }
{
    writer.begin_object()?;
    writer.key(Term::AtContext.text())?;
    writer.begin_object()?;
    put_text(writer, Term::Earl, Term::Namespace.text())?;
    writer.end_object()?;
    writer.key(Term::AtGraph.text())?;
    writer.begin_array()?;
    Ok(())
}

// Writes the assertions on some pages.
fn push_pages(
    alloc: Global,
    writer: &mut Writer,
    infos: &[RuleInfo],
    pages: &[SitePage],
) -> Result<(), OutOfMemory>
    requires { HaveTexts infos.now }
    ensures before { OnOk result (writer.new.before ≡ writer.old.before) }
    ensures tokens { OnOk result (writer.new.tokens ≡ writer.old.tokens ++ all_tokens (assertions infos.now pages.now)) }
{
    for page in pages {
        push_page(alloc, writer, infos, page)?;
    }
    Ok(())
}

// Writes the assertions on a page.
fn push_page(
    alloc: Global,
    writer: &mut Writer,
    infos: &[RuleInfo],
    page: &SitePage,
) -> Result<(), OutOfMemory>
    requires { HaveTexts infos.now }
    ensures before { OnOk result (writer.new.before ≡ writer.old.before) }
    ensures tokens { OnOk result (writer.new.tokens ≡ writer.old.tokens ++ all_tokens (page_assertions infos.now page.now)) }
{
    for info in infos {
        push_rule(alloc, writer, page, info)?;
    }
    Ok(())
}

// Writes the assertions by a rule on a page.
fn push_rule(
    alloc: Global,
    writer: &mut Writer,
    page: &SitePage,
    info: &RuleInfo,
) -> Result<(), OutOfMemory>
    requires { IsUtf8 info.now.id }
    ensures before { OnOk result (writer.new.before ≡ writer.old.before) }
    ensures tokens { OnOk result (writer.new.tokens ≡ writer.old.tokens ++ all_tokens (rule_assertions page.now info.now)) }
{
    let test = rule_name(alloc, info)?;
    if is_inapplicable(page.outcomes.rows.as_slice(), info) {
        push_inapplicable(writer, page, info, test.as_str())
    } else {
        push_rows(alloc, writer, page, info, test.as_str())
    }
}

// What a rule is named in a report.
#[tactic(auto, unfolding(crate::specs::Terms::rule_name))]
fn rule_name(alloc: Global, info: &RuleInfo) -> Result<String, OutOfMemory>
    requires { IsUtf8 info.now.id }
    ensures { IfOk result (λ t. string_bytes t ≡ rule_name info.now.id) }
{
    let id = as_text(&info.id);
    Ok(format!(in alloc; "urn:act-rule:{id}")?)
}

// What a user is named in a report.
#[tactic(auto, unfolding(crate::specs::Terms::user_name))]
fn user_name(alloc: Global, hand: &Text) -> Result<String, OutOfMemory>
    ensures { IfOk result (λ t. string_bytes t ≡ user_name hand.now) }
{
    let hand = hand.as_str();
    Ok(format!(in alloc; "urn:act-desk:user:{hand}")?)
}

// What a node is named in a report.
#[tactic(auto, unfolding(crate::specs::Terms::node_name))]
fn node_name(alloc: Global, n: u32) -> Result<String, OutOfMemory>
    ensures { IfOk result (λ t. string_bytes t ≡ node_name n) }
{
    Ok(format!(in alloc; "node {n}")?)
}

// The text that bytes are.
fn as_text(bytes: &[u8]) -> &str
    requires { IsUtf8 bytes.now }
    ensures { result.now ≡ bytes.now }
{
    match str::from_utf8(bytes) {
        Ok(text) => text,
        Err(_) => "",
    }
}

// Writes the assertions of a rule's rows.
fn push_rows(
    alloc: Global,
    writer: &mut Writer,
    page: &SitePage,
    info: &RuleInfo,
    test: &str,
) -> Result<(), OutOfMemory>
    requires { test.now ≡ rule_name info.now.id }
    ensures before { OnOk result (writer.new.before ≡ writer.old.before) }
    ensures tokens { OnOk result (writer.new.tokens
        ≡ writer.old.tokens ++ all_tokens (map (row_assertion page.now info.now) (of_rule page.now.outcomes.rows info.now))) }
{
    for row in page.outcomes.rows.as_slice() {
        push_row(alloc, writer, page, info, test, row)?;
    }
    Ok(())
}

// Writes the assertion of a row, where it is of the rule.
fn push_row(
    alloc: Global,
    writer: &mut Writer,
    page: &SitePage,
    info: &RuleInfo,
    test: &str,
    row: &OutRow,
) -> Result<(), OutOfMemory>
    requires { test.now ≡ rule_name info.now.id }
    ensures before { OnOk result (writer.new.before ≡ writer.old.before) }
    ensures tokens { OnOk result (writer.new.tokens
        ≡ writer.old.tokens ++ (if is_of info.now row.now then tokens_of (row_assertion page.now info.now row.now) else [])) }
{
    if is_of(info, row) {
        push_row_of(alloc, writer, page, info, test, row)
    } else {
        Ok(())
    }
}

// Writes the assertion of a rule's row.
#[tactic(auto, unfolding(crate::specs::Earl::assertion))]
fn push_row_of(
    alloc: Global,
    writer: &mut Writer,
    page: &SitePage,
    info: &RuleInfo,
    test: &str,
    row: &OutRow,
) -> Result<(), OutOfMemory>
    requires { test.now ≡ rule_name info.now.id }
    ensures before { OnOk result (writer.new.before ≡ writer.old.before) }
    ensures tokens { OnOk result (writer.new.tokens
        ≡ writer.old.tokens ++ tokens_of (row_assertion page.now info.now row.now)) }
{
    begin_assertion(writer)?;
    put_asserter(alloc, writer, row)?;
    put_named(
        writer,
        Term::Mode,
        mode(page.outcomes.rows.as_slice(), info, row).text(),
    )?;
    put_row_result(alloc, writer, row)?;
    end_assertion(writer, page, test)
}

// Writes the assertion that a rule is inapplicable on a page.
#[tactic(auto, unfolding(crate::specs::Earl::assertion))]
fn push_inapplicable(
    writer: &mut Writer,
    page: &SitePage,
    info: &RuleInfo,
    test: &str,
) -> Result<(), OutOfMemory>
    requires { test.now ≡ rule_name info.now.id }
    ensures before { OnOk result (writer.new.before ≡ writer.old.before) }
    ensures tokens { OnOk result (writer.new.tokens ≡ writer.old.tokens ++ tokens_of (no_assertion page.now info.now)) }
{
    begin_assertion(writer)?;
    put_software(writer)?;
    put_named(writer, Term::Mode, Term::Automatic.text())?;
    put_no_result(writer)?;
    end_assertion(writer, page, test)
}

fn begin_assertion(writer: &mut Writer) -> Result<(), OutOfMemory>
    ensures before { OnOk result (writer.new.before ≡ writer.old.before) }
    ensures tokens { OnOk result (writer.new.tokens
        ≡ writer.old.tokens ++ (begin_object ∷ key (text_of term.AtType) ∷ string (text_of term.Assertion) ∷ [])) }
{
    writer.begin_object()?;
    put_text(writer, Term::AtType, Term::Assertion.text())
}

// Writes what an assertion is about, and ends it.
fn end_assertion(writer: &mut Writer, page: &SitePage, test: &str) -> Result<(), OutOfMemory>
    ensures before { OnOk result (writer.new.before ≡ writer.old.before) }
    ensures tokens { OnOk result (writer.new.tokens ≡ writer.old.tokens
        ++ (key (text_of term.Subject) ∷ (tokens_of (subject page.now) ++ (key (text_of term.Test) ∷ (tokens_of (typed test.now (text_of term.TestCase)) ++ (end_object ∷ [])))))) }
{
    put_typed(
        writer,
        Term::Subject,
        page.address.as_str(),
        Term::TestSubject,
    )?;
    put_typed(writer, Term::Test, test, Term::TestCase)?;
    writer.end_object()?;
    Ok(())
}

// Writes who asserts a row.
fn put_asserter(alloc: Global, writer: &mut Writer, row: &OutRow) -> Result<(), OutOfMemory>
    ensures before { OnOk result (writer.new.before ≡ writer.old.before) }
    ensures tokens { OnOk result (writer.new.tokens ≡ writer.old.tokens ++ (key (text_of term.AssertedBy) ∷ tokens_of (asserter row.now))) }
{
    if is_judged(row) {
        put_user(alloc, writer, row)
    } else {
        put_software(writer)
    }
}

fn put_user(alloc: Global, writer: &mut Writer, row: &OutRow) -> Result<(), OutOfMemory>
    ensures before { OnOk result (writer.new.before ≡ writer.old.before) }
    ensures tokens { OnOk result (writer.new.tokens ≡ writer.old.tokens ++ (key (text_of term.AssertedBy) ∷ tokens_of (user row.now.hand))) }
{
    let name = user_name(alloc, &row.hand)?;
    put_named(writer, Term::AssertedBy, name.as_str())
}

fn put_software(writer: &mut Writer) -> Result<(), OutOfMemory>
    ensures before { OnOk result (writer.new.before ≡ writer.old.before) }
    ensures tokens { OnOk result (writer.new.tokens ≡ writer.old.tokens ++ (key (text_of term.AssertedBy) ∷ tokens_of software)) }
{
    put_typed(writer, Term::AssertedBy, Term::Desk.text(), Term::Software)
}

fn is_judged(row: &OutRow) -> bool
    ensures { result ≡ is_judged row.now }
{
    !row.hand.is_empty()
}

// How a row of a rule was found.
fn mode(rows: &[OutRow], info: &RuleInfo, row: &OutRow) -> Term
    ensures { result ≡ mode rows.now info.now row.now }
{
    if is_judged(row) {
        Term::Manual
    } else if has_judged_input(rows, info, row) {
        Term::SemiAuto
    } else {
        Term::Automatic
    }
}

// Whether the rule is composite, and a person judged the row of some input of it on the row's node.
fn has_judged_input(rows: &[OutRow], info: &RuleInfo, row: &OutRow) -> bool
    ensures { result ≡ has_judged_input rows.now info.now row.now }
{
    !info.is_atomic() && some_judged(rows, info, row)
}

fn some_judged(rows: &[OutRow], info: &RuleInfo, row: &OutRow) -> bool
    ensures { result ≡ list_any (λ r. is_judged_input info.now r && r.node.0 == row.now.node.0) rows.now }
{
    rows.iter().any(|other| is_judged_input(info, other) && other.node.0 == row.node.0)
}

fn is_judged_input(info: &RuleInfo, row: &OutRow) -> bool
    ensures { result ≡ is_judged_input info.now row.now }
{
    is_judged(row) && is_input_of(info, row)
}

fn is_input_of(info: &RuleInfo, row: &OutRow) -> bool
    ensures { result ≡ is_input_of info.now row.now }
{
    info.inputs
        .iter()
        .any(|number| *number != 0 && *number == row.rule.0)
}

// Writes the result of a row.
fn put_row_result(alloc: Global, writer: &mut Writer, row: &OutRow) -> Result<(), OutOfMemory>
    ensures before { OnOk result (writer.new.before ≡ writer.old.before) }
    ensures tokens { OnOk result (writer.new.tokens ≡ writer.old.tokens ++ (key (text_of term.Result) ∷ tokens_of (row_result row.now))) }
{
    begin_result(writer, row.reason.word(), outcome_term(row.last))?;
    put_pointer(alloc, writer, row)?;
    writer.end_object()?;
    Ok(())
}

// Writes the result of a rule that is inapplicable.
fn put_no_result(writer: &mut Writer) -> Result<(), OutOfMemory>
    ensures before { OnOk result (writer.new.before ≡ writer.old.before) }
    ensures tokens { OnOk result (writer.new.tokens ≡ writer.old.tokens ++ (key (text_of term.Result) ∷ tokens_of no_result)) }
{
    begin_result(writer, Term::NoTarget.text(), Term::Inapplicable)?;
    writer.end_object()?;
    Ok(())
}

// Writes a result as far as its pointer.
fn begin_result(writer: &mut Writer, info: &str, outcome: Term) -> Result<(), OutOfMemory>
    ensures before { OnOk result (writer.new.before ≡ writer.old.before) }
    ensures tokens { OnOk result (writer.new.tokens ≡ writer.old.tokens
        ++ (key (text_of term.Result) ∷ begin_object ∷ key (text_of term.AtType) ∷ string (text_of term.TestResult)
        ∷ key (text_of term.Info) ∷ string info.now ∷ key (text_of term.Outcome) ∷ tokens_of (named (text_of outcome)))) }
{
    writer.key(Term::Result.text())?;
    writer.begin_object()?;
    put_text(writer, Term::AtType, Term::TestResult.text())?;
    put_text(writer, Term::Info, info)?;
    put_named(writer, Term::Outcome, outcome.text())
}

// Writes where on the page a row is.
fn put_pointer(alloc: Global, writer: &mut Writer, row: &OutRow) -> Result<(), OutOfMemory>
    ensures before { OnOk result (writer.new.before ≡ writer.old.before) }
    ensures tokens { OnOk result (writer.new.tokens
        ≡ writer.old.tokens ++ (key (text_of term.Pointer) ∷ string (node_name row.now.node.0) ∷ [])) }
{
    let pointer = node_name(alloc, row.node.0)?;
    put_text(writer, Term::Pointer, pointer.as_str())
}

fn outcome_term(outcome: Auto) -> Term
    ensures { result ≡ outcome_term outcome }
{
    match outcome {
        Auto::Passed => Term::Passed,
        Auto::Failed => Term::Failed,
        Auto::CantTell => Term::CantTell,
    }
}
