//! Judges pages that are written as text, against what is expected of them: what rules say, names, roles, edits,
//! snapshots. Each file `NAME.pages` of the folder that it runs in has cases, or each that is named as a word of the
//! command, and its last line says how many expectations it has. A line is printed for each expectation that doesn't
//! hold and for each file of another count, and at the end how many there were. Start with `try_file` of `cases.rt`; the
//! words of a case are those of `answers.rt` and `sources.rt`.
#![tactic(auto)]

mod answers;
mod cases;
mod judgings;
mod rules;
mod sources;

use crate::cases::try_file;
use fixture_sketches::Tally;
use std::process::ExitCode;
use std::{env, fs, io};

// The files that are named as words of the command.
fn named(rt: &HostRuntime) -> io::Result<Vec<String>> {
    let mut files = Vec::new(rt.alloc());
    for word in env::args(rt)?.skip(1) {
        files.push(word)?;
    }
    Ok(files)
}

// Those of the folder.
fn found(rt: &HostRuntime) -> io::Result<Vec<String>> {
    let mut files = Vec::new(rt.alloc());
    for entry in fs::read_dir(rt, ".")? {
        let entry = entry?;
        let name = entry.file_name();
        if name.ends_with(".pages") {
            files.push(String::from_str(rt.alloc(), name)?)?;
        }
    }
    Ok(files)
}

// Those that are named, or else those of the folder, in the order of their names.
fn files(rt: &HostRuntime) -> io::Result<Vec<String>> {
    let mut files = named(rt)?;
    if files.is_empty() {
        files = found(rt)?;
    }
    files.sort()?;
    Ok(files)
}

// How many expectations a file has by its last line.
fn stated(text: &str) -> Option<u64> {
    let last = text.lines().last()?;
    let count = last.strip_prefix("# ")?.strip_suffix(" expectations")?;
    count.parse().ok()
}

// Tries the cases of a file, and prints what doesn't hold: how many lines it printed.
fn try_named(rt: &HostRuntime, file: &str) -> io::Result<u64> {
    let text = fs::read_to_string(rt, file)?;
    let mut tally = Tally::new(rt.alloc());
    let mut failed = 0;
    if try_file(rt.alloc(), &mut tally, file, text.as_str()).is_err() {
        println!(rt; "{file}: out of memory")?;
        failed = 1;
    }
    print!(rt; "{}", tally.said)?;
    let count = tally.passed.saturating_add(tally.failed);
    if stated(text.as_str()) != Some(count) {
        println!(rt; "{file}: {count} expectations, which its last line doesn't say")?;
        failed = 1;
    }
    Ok(tally.failed.saturating_add(failed))
}

fn main(rt: HostRuntime) -> io::Result<ExitCode> {
    let files = files(&rt)?;
    let mut failed = u64::from(files.is_empty());
    for file in files {
        failed = failed.saturating_add(try_named(&rt, file.as_str())?);
    }
    println!(rt; "{failed} failed")?;
    Ok(ExitCode::from(u8::from(failed > 0)))
}
