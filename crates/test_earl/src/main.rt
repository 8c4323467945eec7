//! Tests of reading and taking EARL. The files `entries` and `takings` of the folder that it runs in have cases in words; a
//! thousand bodies at random are held against a plain program, and 10,000 claims are taken at once. A line is printed for each that doesn't hold, and at the end how many do. Start with the two files.
#![tactic(auto)]

mod book;
mod chance;
mod entries;
mod large;
mod plain;
mod showing;
mod takings;
mod tally;

use crate::tally::Tally;
use std::process::ExitCode;
use std::{fs, io};

fn main(rt: HostRuntime) -> io::Result<ExitCode> {
    let entries = fs::read_to_string(&rt, "entries")?;
    let takings = fs::read_to_string(&rt, "takings")?;
    let mut tally = Tally::new(rt.alloc());
    let tried = tally.try_all(entries.as_str(), takings.as_str());
    print!(rt; "{}", tally.said)?;
    let missed = tally.missed.saturating_add(u64::from(tried.is_err()));
    println!(rt; "{} hold, {missed} don't", tally.held)?;
    Ok(ExitCode::from(u8::from(missed > 0)))
}
