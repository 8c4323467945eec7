//! What rules say of a page.

use book_forty::{Forty, infos_forty};
use fixture_sketches::{Trouble, cut, number, push_quoted};
use rule_book::{Thirty, infos};
use rule_core::{Auto, NodeVerdict, RuleBook, RuleInfo, RuleNo, Verdict};
use snap_tree::{NodeId, Tree};
use std::alloc::Global;

/// What the rule of an id says of a page: a line for each target, as `3 passed ok "button\nGo"`.
pub(crate) fn rule(alloc: Global, tree: &Tree, id: &str) -> Result<Vec<String>, Trouble> {
    let mut book = Forty::new();
    for info in infos_forty() {
        if info.id.as_slice() == id.as_bytes() {
            return judged(alloc, &mut book, tree, info.no);
        }
    }
    Err(Trouble::NotInForm)
}

/// What all rules of a book say of a page, each line behind the rule's number; at the end how many judgings
/// that took, by nodes and by pages.
pub(crate) fn book(alloc: Global, tree: &Tree, named: &str) -> Result<Vec<String>, Trouble> {
    match named {
        "" => all_said(alloc, &mut Thirty::new(), infos(), tree),
        "forty" => all_said(alloc, &mut Forty::new(), infos_forty(), tree),
        _ => Err(Trouble::NotInForm),
    }
}

fn all_said<B: RuleBook>(
    alloc: Global,
    nodes: &mut B,
    infos: &[RuleInfo],
    tree: &Tree,
) -> Result<Vec<String>, Trouble> {
    let mut lines = Vec::new(alloc);
    for info in infos {
        let no = info.no.0;
        for line in by_nodes(alloc, nodes, tree, info.no)? {
            lines.push(format!(in alloc; "{no}: {line}")?)?;
        }
    }
    let judgings = nodes.calls();
    lines.push(format!(in alloc; "{judgings} judgings")?)?;
    Ok(lines)
}

/// What rules say of nodes by their numbers, as `30 1`, with the number of judgings of one book so far; of the book of
/// forty behind `forty`.
pub(crate) fn judge(alloc: Global, tree: &Tree, asked: &str) -> Result<Vec<String>, Trouble> {
    match asked.strip_prefix("forty ") {
        Some(asked) => judgings(alloc, &mut Forty::new(), tree, asked),
        None => judgings(alloc, &mut Thirty::new(), tree, asked),
    }
}

fn judgings<B: RuleBook>(
    alloc: Global,
    book: &mut B,
    tree: &Tree,
    asked: &str,
) -> Result<Vec<String>, Trouble> {
    let mut lines = Vec::new(alloc);
    for ask in asked.split(',') {
        lines.push(judging(alloc, book, tree, ask.trim())?)?;
    }
    Ok(lines)
}

// The rule and the node of two numbers.
fn pair_of(ask: &str) -> Result<(RuleNo, NodeId), Trouble> {
    let (rule, node) = cut(ask, ' ');
    let rule = u16::try_from(number(rule)?).map_err(|_| Trouble::NotInForm)?;
    Ok((RuleNo(rule), NodeId(number(node)?)))
}

fn judging<B: RuleBook>(
    alloc: Global,
    book: &mut B,
    tree: &Tree,
    ask: &str,
) -> Result<String, Trouble> {
    let (rule, node) = pair_of(ask)?;
    let verdict = book.judge(alloc, tree, rule, node)?;
    let calls = book.calls();
    let mut line = format!(in alloc; "{calls}")?;
    match &verdict {
        Some(verdict) => push_verdict(alloc, &mut line, verdict)?,
        None => line.push_str(" nothing")?,
    }
    Ok(line)
}

// What a rule says of each node of a page by itself, of numbers that are no nodes, and of the page as a whole,
// where that is something else.
fn judged<B: RuleBook>(
    alloc: Global,
    book: &mut B,
    tree: &Tree,
    rule: RuleNo,
) -> Result<Vec<String>, Trouble> {
    let mut lines = by_nodes(alloc, book, tree, rule)?;
    add(alloc, &mut lines, book, tree, rule, NodeId(0))?;
    add(alloc, &mut lines, book, tree, rule, NodeId(u32::MAX))?;
    let of_page = by_page(alloc, book, tree, rule)?;
    if of_page.as_slice() != lines.as_slice() {
        push_all(alloc, &mut lines, of_page)?;
    }
    Ok(lines)
}

fn push_all(alloc: Global, lines: &mut Vec<String>, of_page: Vec<String>) -> Result<(), Trouble> {
    lines.push(String::from_str(alloc, "but of the page as a whole:")?)?;
    for line in of_page {
        lines.push(line)?;
    }
    Ok(())
}

fn by_nodes<B: RuleBook>(
    alloc: Global,
    book: &mut B,
    tree: &Tree,
    rule: RuleNo,
) -> Result<Vec<String>, Trouble> {
    let mut lines = Vec::new(alloc);
    for row in tree.rows() {
        add(alloc, &mut lines, book, tree, rule, row.id)?;
    }
    Ok(lines)
}

fn add<B: RuleBook>(
    alloc: Global,
    lines: &mut Vec<String>,
    book: &mut B,
    tree: &Tree,
    rule: RuleNo,
    node: NodeId,
) -> Result<(), Trouble> {
    if let Some(verdict) = book.judge(alloc, tree, rule, node)? {
        lines.push(verdict_line(alloc, node, &verdict)?)?;
    }
    Ok(())
}

fn by_page<B: RuleBook>(
    alloc: Global,
    book: &mut B,
    tree: &Tree,
    rule: RuleNo,
) -> Result<Vec<String>, Trouble> {
    let mut lines = Vec::new(alloc);
    for found in book.judge_page(alloc, tree, rule)? {
        let NodeVerdict { node, verdict } = found;
        lines.push(verdict_line(alloc, node, &verdict)?)?;
    }
    Ok(lines)
}

fn verdict_line(alloc: Global, node: NodeId, verdict: &Verdict) -> Result<String, Trouble> {
    let NodeId(number) = node;
    let mut line = format!(in alloc; "{number}")?;
    push_verdict(alloc, &mut line, verdict)?;
    Ok(line)
}

/// Adds the outcome, the reason and the evidence of a verdict, behind a space.
pub(crate) fn push_verdict(
    alloc: Global,
    line: &mut String,
    verdict: &Verdict,
) -> Result<(), Trouble> {
    line.push(' ')?;
    line.push_str(outcome(verdict.auto))?;
    line.push(' ')?;
    line.push_str(verdict.reason.word())?;
    line.push(' ')?;
    push_quoted(alloc, line, verdict.evidence.as_str())
}

/// The word of an outcome.
pub(crate) fn outcome(auto: Auto) -> &'static str {
    match auto {
        Auto::Passed => "passed",
        Auto::Failed => "failed",
        Auto::CantTell => "cantTell",
    }
}

/// What all rules of a book say of themselves: the number, the id, what applicability and expectations look at, and the
/// inputs.
pub(crate) fn table(alloc: Global, named: &str) -> Result<Vec<String>, Trouble> {
    match named {
        "" => all_infos(alloc, &Thirty::new(), infos()),
        "forty" => all_infos(alloc, &Forty::new(), infos_forty()),
        _ => Err(Trouble::NotInForm),
    }
}

fn all_infos<B: RuleBook>(
    alloc: Global,
    book: &B,
    infos: &[RuleInfo],
) -> Result<Vec<String>, Trouble> {
    let mut lines = Vec::new(alloc);
    for place in 0..infos.len().saturating_add(1) {
        if let Some(info) = book.info(place) {
            lines.push(info_line(alloc, &info)?)?;
        }
        if book.info(place) != infos.get(place).copied() {
            lines.push(String::from_str(alloc, "but the book has another")?)?;
        }
    }
    Ok(lines)
}

fn info_line(alloc: Global, info: &RuleInfo) -> Result<String, Trouble> {
    let no = info.no.0;
    let applies = info.applies;
    let expects = info.expects;
    let mut line = format!(in alloc; "{no} ")?;
    for byte in info.id {
        line.push(char::from(byte))?;
    }
    line.push_str(format!(in alloc; " {applies:?} {expects:?}")?.as_str())?;
    for input in info.inputs {
        if input != 0 {
            line.push_str(format!(in alloc; " {input}")?.as_str())?;
        }
    }
    Ok(line)
}
