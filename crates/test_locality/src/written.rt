//! Texts of pages in which a part stands for many, and numbers.

use fixture_sketches::{Trouble, cut, number};
use std::alloc::Global;
use std::fmt::Write;

fn push_number(text: &mut String, number: u32, rest: &str) -> Result<(), Trouble> {
    write!(text, "{number}{rest}")?;
    Ok(())
}

// Adds what stands behind `$`: the number for n, the one before it for m, and what follows.
fn push_named(text: &mut String, part: &str, n: u32) -> Result<(), Trouble> {
    match part.strip_prefix("m") {
        Some(rest) => push_number(text, n.saturating_sub(1), rest),
        None => push_number(text, n, part.strip_prefix("n").unwrap_or(part)),
    }
}

fn push_numbered(text: &mut String, part: &str, n: u32) -> Result<(), Trouble> {
    let (before, rest) = cut(part, '$');
    text.push_str(before)?;
    if rest.is_empty() {
        return Ok(());
    }
    for named in rest.split('$') {
        push_named(text, named, n)?;
    }
    Ok(())
}

// Adds what stands between braces: FIRST LAST TEXT, the text once for each number from the first to the last.
fn push_run(text: &mut String, run: &str) -> Result<(), Trouble> {
    let (first, rest) = cut(run, ' ');
    let (last, part) = cut(rest, ' ');
    let end = number(last)?.saturating_add(1);
    for n in number(first)?..end {
        push_numbered(text, part, n)?;
    }
    Ok(())
}

// Adds what stands behind a brace: a run, and what follows it.
fn push_part(text: &mut String, part: &str) -> Result<(), Trouble> {
    let (run, rest) = cut(part, '}');
    push_run(text, run)?;
    text.push_str(rest)?;
    Ok(())
}

fn push_runs(text: &mut String, runs: &str) -> Result<(), Trouble> {
    for part in runs.split('{') {
        push_part(text, part)?;
    }
    Ok(())
}

/// A text with its runs written out.
pub(crate) fn filled(alloc: Global, text: &str) -> Result<String, Trouble> {
    let (before, runs) = cut(text, '{');
    let mut all = String::from_str(alloc, before)?;
    if !runs.is_empty() {
        push_runs(&mut all, runs)?;
    }
    Ok(all)
}

fn product(text: &str) -> Result<u64, Trouble> {
    let mut all = 1u64;
    for part in text.split('*') {
        all = all.saturating_mul(u64::from(number(part)?));
    }
    Ok(all)
}

/// The number that a text is as a sum of products.
pub(crate) fn sum(text: &str) -> Result<u64, Trouble> {
    let mut all = 0u64;
    for part in text.split('+') {
        all = all.saturating_add(product(part)?);
    }
    Ok(all)
}
