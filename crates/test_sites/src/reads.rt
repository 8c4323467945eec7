//! What a request reads of what is kept.

use crate::asked::{is_accepted, keeper_failing, replied};
use crate::doubtful::{Call, Doubtful, trail_with};
use std::alloc::Global;
use std::test::Fail;
use std::thread::Threads;

// What somebody asks, and the calls of the keeper that it makes, in their order.
type Reading = (&'static str, &'static str, &'static [Call]);

const CHANGES_MEMBERS: &[Call] = &[Call::Site, Call::Apply];

const PUTS: &[Call] = &[Call::Site, Call::List, Call::Judgements, Call::Apply];

const JUDGES: &[Call] = &[
    Call::Site,
    Call::Load,
    Call::Judgements,
    Call::Outcomes,
    Call::Apply,
];

const RELISTS: &[Call] = &[
    Call::Site,
    Call::List,
    Call::Load,
    Call::Judgements,
    Call::Outcomes,
    Call::Apply,
];

const LOADS: &[Call] = &[Call::Site, Call::Load];

const SHOWS: &[Call] = &[Call::Site, Call::Load, Call::Outcomes];

const TELLS: &[Call] = &[Call::Site, Call::Load, Call::Judgements, Call::Outcomes];

const SHOWS_SITE: &[Call] = &[Call::Site, Call::List, Call::Load, Call::Outcomes];

static READINGS: [Reading; 20] = [
    ("ann", "PUT /sites/acme", CHANGES_MEMBERS),
    (
        "ann",
        "PUT /sites/acme/members/bob\n{\"role\":\"judge\"}",
        CHANGES_MEMBERS,
    ),
    (
        "ann",
        "PUT /sites/acme/pages/home\nx-rev: 0\n{\"url\":\"https://example.org/\",\"nodes\":[{\"n\":1,\"p\":null,\"tag\":\"div\",\"attrs\":[[\"alt\",\"x\"]]}]}",
        PUTS,
    ),
    (
        "ann",
        "PUT /sites/acme/pages/home\nx-rev: 1\n{\"url\":\"https://example.org/\",\"nodes\":[{\"n\":1,\"p\":null,\"tag\":\"div\",\"attrs\":[[\"alt\",\"x\"]]}]}",
        PUTS,
    ),
    (
        "ann",
        "POST /sites/acme/pages/home/edits\nx-rev: 2\n{\"edits\":[{\"op\":\"setAttr\",\"node\":1,\"name\":\"alt\",\"value\":\"y\"}]}",
        JUDGES,
    ),
    (
        "bob",
        "POST /sites/acme/pages/home/judgements\n{\"rule\":\"attr0a\",\"node\":1,\"verdict\":\"passed\",\"digest\":\"a1fce4363854ff888cff4b8e7875d600c2682390412a8cf79b37d0b11148b0fa\"}",
        JUDGES,
    ),
    (
        "bob",
        "POST /sites/acme/pages/home/earl\n{\"@graph\":[{\"earl:subject\":\"https://example.org/\",\"earl:test\":\"urn:act-rule:attr0a\",\"earl:mode\":\"earl:manual\",\"earl:result\":{\"earl:outcome\":\"earl:failed\",\"earl:pointer\":\"node 1\",\"earl:info\":\"a1fce4363854ff888cff4b8e7875d600c2682390412a8cf79b37d0b11148b0fa\"}}]}",
        JUDGES,
    ),
    ("bob", "GET /sites/acme/pages/home", LOADS),
    ("bob", "GET /sites/acme/pages/home/names", LOADS),
    ("bob", "GET /sites/acme/pages/home/outcomes", SHOWS),
    ("bob", "GET /sites/acme/pages/home/report", SHOWS),
    ("bob", "GET /sites/acme/pages/home/earl", SHOWS),
    ("bob", "GET /sites/acme/report", SHOWS_SITE),
    ("bob", "GET /sites/acme/earl", SHOWS_SITE),
    ("bob", "GET /sites/acme/csv", SHOWS_SITE),
    ("bob", "GET /sites/acme/pages/home/verdicts", TELLS),
    ("bob", "GET /sites/acme/members", &[Call::Site]),
    ("bob", "GET /memberships", &[Call::Memberships]),
    (
        "ann",
        "PUT /sites/acme/languages\n{\"languages\":[\"gsw\"]}",
        RELISTS,
    ),
    (
        "ann",
        "DELETE /sites/acme/pages/home\nx-rev: 3",
        &[Call::Site, Call::Load, Call::Apply],
    ),
];

fn trail_of(calls: &[Call]) -> u64 {
    let mut trail = 0;
    for call in calls {
        trail = trail_with(trail, *call);
    }
    trail
}

fn reads_so<R: Threads + Sync>(
    rt: &R,
    alloc: Global,
    keeper: &mut Doubtful,
    reading: &Reading,
) -> Result<bool, Fail> {
    let (caller, request, calls) = *reading;
    let reply = replied(rt, alloc, keeper, caller, request)?;
    Ok(is_accepted(reply.as_slice()) && keeper.trail() == trail_of(calls))
}

#[test]
fn a_request_reads_what_it_needs(rt: HostRuntime) -> Result<(), Fail> {
    let alloc = rt.alloc();
    let mut keeper = Doubtful::over(keeper_failing(alloc, &[])?);
    for (place, reading) in READINGS.iter().enumerate() {
        if !reads_so(&rt, alloc, &mut keeper, reading)? {
            return Err(Fail::from(place));
        }
    }
    Ok(())
}
