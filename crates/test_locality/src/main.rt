//! Tries locality over all rules: over pairs of a page and one edit of it, whatever a rule looks at by its two classes is
//! listed by a plain program, and where its values are the same the rule says the same; where a class is made smaller, it
//! doesn't; the audit after an edit judges what that program finds affected, and what was counted by hand. The pairs are
//! lines of the files of `data`, whose words `steps.rt` has. A line is printed for each that doesn't hold, and at the end how
//! many held and how many didn't.
#![tactic(auto)]

mod again;
mod books;
mod cases;
mod judged;
mod random;
mod reach;
mod steps;
mod values;
mod written;

use crate::cases::{case_of, lists_after, page_after};
use crate::steps::{Told, said};
use fixture_sketches::{Trouble, cut};
use std::process::ExitCode;
use std::{fs, io};

static FILES: [&str; 7] = [
    "costs", "forty", "keeps", "limits", "lists", "random", "untrue",
];

/// How many lines held, and how many didn't.
#[derive(Clone, Copy)]
struct Count {
    passed: u64,
    failed: u64,
}

// What is wrong with a line, and a number that tells more; nothing of one that holds.
fn wrong_with(answer: Result<Told, Trouble>) -> Option<(&'static str, u64)> {
    match answer {
        Ok(Told::Nothing | Told::Holds) => None,
        Ok(Told::Fails(what, number)) => Some((what, number)),
        Err(trouble) => Some((trouble.said(), 0)),
    }
}

fn counted(count: Count, answer: Result<Told, Trouble>) -> Count {
    match answer {
        Ok(Told::Nothing) => count,
        Ok(Told::Holds) => Count {
            passed: count.passed.saturating_add(1),
            failed: count.failed,
        },
        _ => Count {
            passed: count.passed,
            failed: count.failed.saturating_add(1),
        },
    }
}

// Tries the lines of a file, and prints those that don't hold.
fn try_file(rt: &HostRuntime, file: &str, count: Count) -> io::Result<Count> {
    let text = fs::read_to_string(rt, file)?;
    let mut count = count;
    let mut page = "";
    let mut lists = "";
    let mut at = 0u64;
    for line in text.as_str().lines() {
        at = at.saturating_add(1);
        let (word, rest) = cut(line, ' ');
        page = page_after(page, word, rest);
        lists = lists_after(lists, word, rest);
        let answer = said(rt.alloc(), case_of(page, lists), word, rest);
        count = counted(count, answer);
        if let Some((what, number)) = wrong_with(answer) {
            println!(rt; "{file}:{at}: {what} {number}")?;
        }
    }
    Ok(count)
}

fn main(rt: HostRuntime) -> io::Result<ExitCode> {
    let mut count = Count {
        passed: 0,
        failed: 0,
    };
    for file in FILES.as_slice() {
        count = try_file(&rt, file, count)?;
    }
    let Count { passed, failed } = count;
    println!(rt; "{passed} passed, {failed} failed")?;
    Ok(ExitCode::from(u8::from(failed > 0)))
}
