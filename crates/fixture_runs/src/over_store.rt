//! Plays cases with runs of the program over stores.

ghost use Rattle.std.specs.Prelude.{◌≡◌, ◌<◌, None, vec_len};

use crate::over_failing;
use crate::playing::{Outcome, ask_joined, step_differs};
use crate::running::{Ended, door_of, ended_differs, texts};
use crate::streaming::{Failing, Streams, streams_of};
use fixture_failing_keeper::FailingKeeper;
use fixture_keepers::{Made, calls_of};
use fixture_plays::{Play, Way};
use fixture_talks::{Plot, Run, Step, Talk};
use fixture_words::{Difference, Wrong};
use keep_sql::SqlKeeper;
use links::MemDoor;
use snap_tree::{List, Text};
use sqlite::Alter;
use std::alloc::Global;
use std::thread::Threads;
use store_run::run_store;

// The status of a run.
fn status_of<R: Threads + Sync, S: Alter + Drop, B: Made>(
    rt: &R,
    alloc: Global,
    keeper: &mut SqlKeeper<S>,
    words: &List<Text>,
    streams: &mut Streams,
    door: &mut MemDoor,
    books: &mut Vec<B>,
) -> u8
    requires some { 0 < vec_len books.old }
    requires unheard { door.old.heard ≡ None }
{
    run_store(
        rt,
        alloc,
        words,
        &mut streams.input,
        &mut streams.out,
        &mut streams.err,
        keeper,
        door,
        books,
    )
}

// Runs the program.
fn ended_run<R: Threads + Sync, S: Alter + Drop, B: Made>(
    rt: &R,
    play: &mut Play<SqlKeeper<S>, B>,
    run: &Run,
) -> Result<Ended, Wrong> {
    let failing = Failing::nothing();
    let (alloc, piece) = (play.alloc, play.way.piece);
    let words = texts(alloc, run.words.as_slice())?;
    let mut streams = streams_of(alloc, run, piece, failing)?;
    let mut door = door_of(alloc, run, piece, failing)?;
    let books = &mut play.books;
    if books.is_empty() {
        return Err(Wrong::Line(run.line, "there is no book"));
    }
    let before = calls_of(books.as_slice());
    let keeper = &mut play.keeper;
    let status = status_of(rt, alloc, keeper, &words, &mut streams, &mut door, books);
    Ok(Ended {
        status: u64::from(status),
        streams,
        door,
        judgings: calls_of(books.as_slice()).saturating_sub(before),
    })
}

// The first difference between how a run ends and what the script says of it.
fn run_differs<R: Threads + Sync, S: Alter + Drop, B: Made>(
    rt: &R,
    play: &mut Play<SqlKeeper<S>, B>,
    run: &Run,
) -> Result<Option<Difference>, Wrong> {
    let ended = ended_run(rt, play, run)?;
    ended_differs(play.alloc, &mut play.came, run, &ended)
}

fn any_differs<R: Threads + Sync, S: Alter + Drop, B: Made>(
    rt: &R,
    play: &mut Play<SqlKeeper<S>, B>,
    joined: &mut Talk,
    step: &Step,
) -> Result<Option<Difference>, Wrong> {
    let difference = step_differs(rt, play, joined, step)?;
    match step {
        Step::Run(run) if difference.is_none() => run_differs(rt, play, run),
        _ => Ok(difference),
    }
}

// The first difference in the head of a script and in a case.
fn plot_differs<R: Threads + Sync, S: Alter + Drop, B: Made>(
    rt: &R,
    play: &mut Play<SqlKeeper<S>, B>,
    plot: Plot<'_>,
) -> Result<Option<Difference>, Wrong> {
    let mut joined = Talk::new(play.alloc, plot.case.line, true);
    for step in plot.head.iter().chain(plot.case.steps.iter()) {
        let difference = any_differs(rt, play, &mut joined, step)?;
        if difference.is_some() {
            return Ok(difference);
        }
    }
    ask_joined(rt, play, &mut joined)
}

/// Plays the head of a script and a case over a keeper, to the first difference.
pub(crate) fn outcome_of<R: Threads + Sync, S: Alter + Drop, B: Made>(
    rt: &R,
    alloc: Global,
    keeper: SqlKeeper<S>,
    plot: Plot<'_>,
    way: Way,
) -> Result<Outcome, Wrong> {
    let mut play = Play::<_, B>::new(alloc, keeper, way)?;
    let difference = plot_differs(rt, &mut play, plot)?;
    let came = play.came;
    Ok(Outcome { came, difference })
}

/// The same over a keeper of which calls fail.
pub(crate) fn outcome_of_failing<R: Threads + Sync, S: Alter + Drop, B: Made>(
    rt: &R,
    alloc: Global,
    keeper: FailingKeeper<SqlKeeper<S>>,
    plot: Plot<'_>,
    way: Way,
) -> Result<Outcome, Wrong> {
    over_failing::outcome_of::<R, SqlKeeper<S>, B>(rt, alloc, keeper, plot, way)
}
