//! Cuts a file into cases, and a case into steps.

use crate::trouble::Trouble;
use crate::words::{count, cut};
use std::alloc::Global;

/// A line of a file: its number, counted from 1, and its text without the white space at its end.
#[derive(Drop)]
pub struct Line {
    pub at: usize,
    pub text: String,
}

/// A step of a case: its words, and the lines of its block with the indentation that they have in it.
#[derive(Drop)]
pub struct Step {
    pub at: usize,
    pub words: String,
    pub block: Vec<Line>,
}

/// The steps of a case, in which each `$1`, `$2` .. stands for the cell of a row of its table.
pub fn steps_of(
    alloc: Global,
    lines: &[(usize, &str)],
    cells: &[&str],
) -> Result<Vec<Step>, Trouble> {
    let mut steps = Vec::new(alloc);
    for (at, line) in lines {
        let line = filled(alloc, line, cells)?;
        let line = repeated(alloc, line.as_str())?;
        add_line(alloc, &mut steps, *at, line.as_str())?;
    }
    Ok(steps)
}

// A line with the cells in place of `$1`, `$2` ..
fn filled(alloc: Global, line: &str, cells: &[&str]) -> Result<String, Trouble> {
    let mut text = String::from_str(alloc, line)?;
    for (place, cell) in cells.iter().enumerate() {
        let name = format!(in alloc; "${}", place.wrapping_add(1))?;
        text = text.replace(alloc, name.as_str(), cell)?;
    }
    Ok(text)
}

// A line with each `\(4097 a)` written out as so many of the text, in which `%` stands for the number from 0.
fn repeated(alloc: Global, line: &str) -> Result<String, Trouble> {
    let mut text = String::new(alloc);
    for (place, part) in line.split("\\(").enumerate() {
        if place == 0 {
            text.push_str(part)?;
        } else {
            push_repeated(alloc, &mut text, part)?;
        }
    }
    Ok(text)
}

fn push_repeated(alloc: Global, text: &mut String, part: &str) -> Result<(), Trouble> {
    let (repeat, behind) = cut(part, ')');
    let (times, piece) = cut(repeat, ' ');
    push_times(alloc, text, count(times)?, piece)?;
    text.push_str(behind)?;
    Ok(())
}

fn push_times(alloc: Global, text: &mut String, times: usize, piece: &str) -> Result<(), Trouble> {
    if !piece.contains('%') {
        text.push_str(piece.repeat(alloc, times)?.as_str())?;
        return Ok(());
    }
    for number in 0..times {
        push_numbered(alloc, text, piece, number)?;
    }
    Ok(())
}

// Adds a text with a number in place of each `%`.
fn push_numbered(
    alloc: Global,
    text: &mut String,
    piece: &str,
    number: usize,
) -> Result<(), Trouble> {
    if !piece.contains('%') {
        text.push_str(piece)?;
        return Ok(());
    }
    let digits = format!(in alloc; "{number}")?;
    text.push_str(piece.replace(alloc, '%', digits.as_str())?.as_str())?;
    Ok(())
}

// Adds a line: one that isn't indented begins a step, one that is belongs to the last.
fn add_line(alloc: Global, steps: &mut Vec<Step>, at: usize, line: &str) -> Result<(), Trouble> {
    let text = line.trim_start();
    let indented = line.len().saturating_sub(text.len());
    if indented == 0 {
        return begin(alloc, steps, at, line);
    }
    match steps.last_mut() {
        Some(step) => add_to(
            alloc,
            &mut step.block,
            at,
            line.strip_prefix("  ").unwrap_or(text),
        ),
        None => Err(Trouble::NotInForm),
    }
}

fn begin(alloc: Global, steps: &mut Vec<Step>, at: usize, line: &str) -> Result<(), Trouble> {
    let (words, inline) = match line.split_once(": ") {
        Some(parts) => parts,
        None => (line, ""),
    };
    let mut block = Vec::new(alloc);
    if !inline.is_empty() {
        add_to(alloc, &mut block, at, inline)?;
    }
    let words = String::from_str(alloc, words.trim_end())?;
    steps.push(Step { at, words, block })?;
    Ok(())
}

// Adds a line of a block; one that begins `repeat 9:` is so many.
fn add_to(alloc: Global, block: &mut Vec<Line>, at: usize, line: &str) -> Result<(), Trouble> {
    let text = line.trim_start();
    let Some(rest) = text.strip_prefix("repeat ") else {
        let text = String::from_str(alloc, line)?;
        block.push(Line { at, text })?;
        return Ok(());
    };
    let indented = line.strip_suffix(text).unwrap_or("");
    let (times, piece) = cut(rest, ':');
    for number in 0..count(times)? {
        let mut text = String::from_str(alloc, indented)?;
        push_numbered(alloc, &mut text, piece.trim_start(), number)?;
        block.push(Line { at, text })?;
    }
    Ok(())
}
