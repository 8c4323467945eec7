//! The file `entries`: what is read of an entry that is changed in one place, and of whole bodies.

use crate::showing::shown_body;
use crate::tally::Tally;
use snap_tree::OutOfMemory;
use std::alloc::Global;

// The digest of nothing (FIPS 180-4), which `$digest` stands for.
const DIGEST: &str = "e3b0c44298fc1c149afbf4c8996fb92427ae41e4649b934ca495991b7852b855";

// A text with another in place of the first of its parts that is this one.
fn replaced(alloc: Global, text: &str, part: &str, other: &str) -> Result<String, OutOfMemory> {
    match text.split_once(part) {
        Some((before, behind)) => Ok(format!(in alloc; "{before}{other}{behind}")?),
        None => Ok(String::from_str(alloc, text)?),
    }
}

fn repeated(alloc: Global, count: usize) -> Result<String, OutOfMemory> {
    let mut text = String::new(alloc);
    for _ in 0..count {
        text.push('n')?;
    }
    Ok(text)
}

// A text with what its words stand for: a digest, and notes of 2,000 and 2,001 bytes.
fn filled(alloc: Global, text: &str) -> Result<String, OutOfMemory> {
    let text = replaced(alloc, text, "$digest", DIGEST)?;
    let most = repeated(alloc, 2000)?;
    let text = replaced(alloc, text.as_str(), "$2000", most.as_str())?;
    let more = repeated(alloc, 2001)?;
    replaced(alloc, text.as_str(), "$2001", more.as_str())
}

// The body that a line tells: it is the line itself, or has the entry with what the line changes.
fn body_of(alloc: Global, entry: &str, line: &str) -> Result<String, OutOfMemory> {
    if let Some(body) = line.strip_prefix("body ") {
        return filled(alloc, body);
    }
    let (part, other) = line.split_once(" => ").unwrap_or((line, line));
    let entry = replaced(alloc, entry, part, other)?;
    let entry = filled(alloc, entry.as_str())?;
    Ok(format!(in alloc; "{{\"@graph\":[{entry}]}}")?)
}

fn try_line(tally: &mut Tally, number: usize, entry: &str, line: &str) -> Result<(), OutOfMemory> {
    let alloc = tally.alloc;
    let (change, wanted) = line.split_once(" :: ").unwrap_or((line, ""));
    let body = body_of(alloc, entry, change)?;
    let came = shown_body(alloc, body.as_str())?;
    let wanted = filled(alloc, wanted)?;
    tally.expect("entries", number, wanted.as_str(), came.trim_end())
}

/// Tries each line of the file.
pub(crate) fn try_entries(tally: &mut Tally, text: &str) -> Result<(), OutOfMemory> {
    let mut entry = "";
    let mut number = 0usize;
    for line in text.lines() {
        number = number.saturating_add(1);
        if let Some(whole) = line.strip_prefix("entry ") {
            entry = whole;
        } else if !line.is_empty() && !line.starts_with("#") {
            try_line(tally, number, entry, line)?;
        }
    }
    Ok(())
}
