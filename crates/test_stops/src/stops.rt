//! Wherever a disk stops, the store holds, once it is opened again, what was kept before the request under way or after it.

use crate::disks::{Disks, Fused, Stopped, has_stopped, new_disks, opened, ways};
use crate::requests::{REQUESTS, accepted, kept_now, states};
use keep_sql::{Prepared, SqlKeeper};
use sqlite::{Alter, Files};
use std::alloc::Global;
use std::test::Fail;
use std::thread::Threads;

// How many requests a keeper accepts, once it is ready.
fn count_of<R: Threads + Sync, S: Alter + Drop>(
    rt: &R,
    alloc: Global,
    keeper: &mut SqlKeeper<S>,
) -> Result<usize, Fail> {
    match keeper.prepare(alloc) {
        Ok(Prepared::Ready) => Ok(accepted(rt, alloc, keeper)?),
        _ => Ok(0),
    }
}

// How many requests a keeper accepts, and its store then. (What is said of any store is proved once; of one over disks
// each part that may go at an error is proved too.)
fn served<R: Threads + Sync, S: Alter + Drop>(
    rt: &R,
    alloc: Global,
    mut keeper: SqlKeeper<S>,
) -> Result<(usize, S), Fail> {
    let count = count_of(rt, alloc, &mut keeper)?;
    match keeper.into_store() {
        Some(store) => Ok((count, store)),
        None => Err(Fail::from("no store")),
    }
}

// What a keeper holds, once it is ready.
fn kept_over<S: Alter + Drop>(alloc: Global, mut keeper: SqlKeeper<S>) -> Result<String, Fail> {
    keeper.prepare(alloc)?;
    Ok(kept_now(alloc, &mut keeper)?)
}

// How many requests are accepted over disks, and the disks then.
fn run<R: Threads + Sync>(rt: &R, alloc: Global, disks: Disks) -> Result<(usize, Disks), Fail> {
    match opened(alloc, disks) {
        Ok(keeper) => {
            let (count, store) = served(rt, alloc, keeper)?;
            Ok((count, store.close()))
        }
        Err(disks) => Ok((0, disks)),
    }
}

// What a store over disks that are started again holds.
fn kept_again(alloc: Global, disks: Disks) -> Result<String, Fail> {
    match opened(alloc, disks) {
        Ok(keeper) => kept_over(alloc, keeper),
        Err(_) => Err(Fail::from("it isn't opened")),
    }
}

// Whether this is what is kept after so many requests.
fn is_state(states: &[String], count: usize, now: &str) -> bool {
    match states.get(count) {
        Some(state) => state.as_str() == now,
        None => false,
    }
}

// Whether it is that, or what is kept after one more.
fn is_near(states: &[String], count: usize, now: &str) -> bool {
    is_state(states, count, now) || is_state(states, count.saturating_add(1), now)
}

// Whether that is what was kept after so many requests or after one more, whatever is left of what wasn't synced.
fn keeps_near(
    alloc: Global,
    mut disks: Disks,
    states: &[String],
    count: usize,
) -> Result<bool, Fail> {
    let log = Stopped::new(alloc, &mut disks.log)?;
    let db = Stopped::new(alloc, &mut disks.db)?;
    for left in ways(log.is_synced() && db.is_synced()) {
        let log = log.started(alloc, *left)?;
        let db = db.started(alloc, *left)?;
        let now = kept_again(alloc, Files { log, db })?;
        if !is_near(states, count, now.as_str()) {
            return Ok(false);
        }
    }
    Ok(true)
}

fn fused_disks(alloc: Global, fused: Fused, calls: u64) -> Disks {
    let (log, db) = fused.calls(calls);
    new_disks(alloc, log, db)
}

// Whether it stops in a run, after so many calls. Fails where anything else is kept then, or where the run is one without
// a stop and not each request is accepted.
fn stops<R: Threads + Sync>(
    rt: &R,
    alloc: Global,
    fused: Fused,
    calls: u64,
    states: &[String],
) -> Result<bool, Fail> {
    let (count, mut disks) = run(rt, alloc, fused_disks(alloc, fused, calls))?;
    let has_stopped = has_stopped(&mut disks.log) || has_stopped(&mut disks.db);
    let is_due = has_stopped || count == REQUESTS.len();
    if !is_due || !keeps_near(alloc, disks, states, count)? {
        return Err(Fail::from((fused, calls)));
    }
    Ok(has_stopped)
}

// The runs are shared out between tests: to each comes every fourth.
const SHARES: u64 = 4;

// More runs than come to a test.
const MOST: u64 = 1_000;

// Goes through a share of the runs, from the least number of calls to the first run without a stop. Whether that came.
fn share_ends<R: Threads + Sync>(
    rt: &R,
    alloc: Global,
    fused: Fused,
    share: u64,
) -> Result<bool, Fail> {
    let states = states(rt, alloc)?;
    let mut calls = share;
    for _ in 0..MOST {
        if !stops(rt, alloc, fused, calls, states.as_slice())? {
            return Ok(true);
        }
        calls = calls.saturating_add(SHARES);
    }
    Ok(false)
}

fn must_end<R: Threads + Sync>(
    rt: &R,
    alloc: Global,
    fused: Fused,
    share: u64,
) -> Result<(), Fail> {
    if share_ends(rt, alloc, fused, share)? {
        Ok(())
    } else {
        Err(Fail::from("each run stops"))
    }
}

#[test]
fn the_log_stops_at_calls_of_the_first_share(rt: HostRuntime) -> Result<(), Fail> {
    must_end(&rt, rt.alloc(), Fused::Log, 0)
}

#[test]
fn the_log_stops_at_calls_of_the_second_share(rt: HostRuntime) -> Result<(), Fail> {
    must_end(&rt, rt.alloc(), Fused::Log, 1)
}

#[test]
fn the_log_stops_at_calls_of_the_third_share(rt: HostRuntime) -> Result<(), Fail> {
    must_end(&rt, rt.alloc(), Fused::Log, 2)
}

#[test]
fn the_log_stops_at_calls_of_the_fourth_share(rt: HostRuntime) -> Result<(), Fail> {
    must_end(&rt, rt.alloc(), Fused::Log, 3)
}

#[test]
fn the_database_stops_at_calls_of_the_first_share(rt: HostRuntime) -> Result<(), Fail> {
    must_end(&rt, rt.alloc(), Fused::Db, 0)
}

#[test]
fn the_database_stops_at_calls_of_the_second_share(rt: HostRuntime) -> Result<(), Fail> {
    must_end(&rt, rt.alloc(), Fused::Db, 1)
}

#[test]
fn the_database_stops_at_calls_of_the_third_share(rt: HostRuntime) -> Result<(), Fail> {
    must_end(&rt, rt.alloc(), Fused::Db, 2)
}

#[test]
fn the_database_stops_at_calls_of_the_fourth_share(rt: HostRuntime) -> Result<(), Fail> {
    must_end(&rt, rt.alloc(), Fused::Db, 3)
}
