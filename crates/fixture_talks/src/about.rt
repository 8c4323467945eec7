//! What the lines of a script say of a talk, of a run, and of a step that is one line.

use crate::run::{Run, Sink};
use crate::script::{Judged, Prepares, Reads, Step};
use crate::settings::set_failing;
use crate::talk::{End, Judgings, Talk};
use fixture_words::{Wrong, first_word, number, unescaped};
use std::alloc::Global;

/// Takes up what a line says of what is said over a connection.
pub(crate) fn about_talk(line: u64, talk: &mut Talk, word: &str, rest: &str) -> Result<(), Wrong> {
    match word {
        "judgings" => talk.judgings = Some(judgings_of(line, rest)?),
        _ => talk.end = end_of(line, rest)?,
    }
    Ok(())
}

fn judgings_of(line: u64, rest: &str) -> Result<Judgings, Wrong> {
    let (count, at_most) = match rest.strip_prefix("at most ") {
        Some(count) => (count, true),
        None => (rest, false),
    };
    let count = number(line, count)?;
    Ok(Judgings { count, at_most })
}

fn end_of(line: u64, rest: &str) -> Result<End, Wrong> {
    match rest {
        "ended" => Ok(End::Ended),
        "cut" => Ok(End::Cut),
        "closed" => Ok(End::Closed),
        "fault" => Ok(End::Fault),
        _ => Err(Wrong::Line(line, "no such end")),
    }
}

/// Whether a line that begins with this word says something of a run.
pub(crate) fn is_of_run(word: &str) -> bool {
    match word {
        "input" | "source" | "door" | "status" | "out:" | "err:" | "out" | "err" => true,
        "judgings" => true,
        _ => false,
    }
}

/// Takes up what a line says of a run.
pub(crate) fn about_run(
    alloc: Global,
    line: u64,
    run: &mut Run,
    word: &str,
    rest: &str,
) -> Result<(), Wrong> {
    match word {
        "input" => Ok(run.input.extend_from_slice(rest.as_bytes())?),
        "source" => set_failing(alloc, line, &mut run.input_fails, rest),
        "door" => set_failing(alloc, line, &mut run.door_fails, rest),
        "status" => set_number(line, &mut run.status, rest),
        "judgings" => set_judgings(line, run, rest),
        "out:" => add_line(&mut run.out.due, rest),
        "err:" => add_line(&mut run.err.due, rest),
        "out" => about_sink(alloc, line, &mut run.out, rest),
        _ => about_sink(alloc, line, &mut run.err, rest),
    }
}

fn set_judgings(line: u64, run: &mut Run, rest: &str) -> Result<(), Wrong> {
    run.judgings = Some(judgings_of(line, rest)?);
    Ok(())
}

fn set_number(line: u64, place: &mut u64, rest: &str) -> Result<(), Wrong> {
    *place = number(line, rest)?;
    Ok(())
}

fn add_line(out: &mut Vec<u8>, text: &str) -> Result<(), Wrong> {
    out.extend_from_slice(text.as_bytes())?;
    out.push(b'\n')?;
    Ok(())
}

fn add_raw(alloc: Global, line: u64, out: &mut Vec<u8>, text: &str) -> Result<(), Wrong> {
    let bytes = unescaped(alloc, line, text)?;
    out.extend_from_slice(bytes.as_slice())?;
    Ok(())
}

fn about_sink(alloc: Global, line: u64, sink: &mut Sink, rest: &str) -> Result<(), Wrong> {
    let (word, text) = first_word(rest);
    match word {
        "room" => set_number(line, &mut sink.room, text),
        "raw:" => add_raw(alloc, line, &mut sink.due, text),
        _ => set_failing(alloc, line, &mut sink.fails, rest),
    }
}

/// The step that a line says which begins with `prepares`, `judgements`, `edition` or `reads`.
pub(crate) fn step_of(alloc: Global, line: u64, word: &str, rest: &str) -> Result<Step, Wrong> {
    match word {
        "prepares" => Ok(Step::Prepare(line, prepares_of(line, rest)?)),
        "judgements" => judged_of(alloc, line, rest),
        "edition" => Ok(Step::Edition(line, number(line, rest)?)),
        _ => reads_of(alloc, line, rest),
    }
}

fn prepares_of(line: u64, rest: &str) -> Result<Prepares, Wrong> {
    let (word, edition) = first_word(rest);
    match word {
        "ready" => Ok(Prepares::Ready),
        "fault" => Ok(Prepares::Fault),
        "edition" => Ok(Prepares::Edition(number(line, edition)?)),
        _ => Err(Wrong::Line(line, "no such answer")),
    }
}

// SITE PAGE COUNT
fn judged_of(alloc: Global, line: u64, rest: &str) -> Result<Step, Wrong> {
    let (site, rest) = first_word(rest);
    let (page, count) = first_word(rest);
    let count = number(line, count)?;
    let site = String::from_str(alloc, site)?;
    let page = String::from_str(alloc, page)?;
    Ok(Step::Judged(Judged {
        line,
        site,
        page,
        count,
    }))
}

// Marks the call of this name.
fn mark(fails: &mut [bool; 8], call: &str) {
    match call {
        "site" => fails[0] = true,
        "load" => fails[1] = true,
        "list" => fails[2] = true,
        "judgements" => fails[3] = true,
        "outcomes" => fails[4] = true,
        "edition" => fails[5] = true,
        "sites" => fails[6] = true,
        "memberships" => fails[7] = true,
        _ => {}
    }
}

fn failing(calls: &str) -> [bool; 8] {
    let mut fails = [false; 8];
    for call in calls.split_whitespace() {
        mark(&mut fails, call);
    }
    fails
}

// SITE PAGE fail CALLS
fn reads_of(alloc: Global, line: u64, rest: &str) -> Result<Step, Wrong> {
    let (site, rest) = first_word(rest);
    let (page, rest) = first_word(rest);
    let site = String::from_str(alloc, site)?;
    let page = String::from_str(alloc, page)?;
    let fails = failing(rest);
    Ok(Step::Reads(Reads {
        line,
        site,
        page,
        fails,
    }))
}
