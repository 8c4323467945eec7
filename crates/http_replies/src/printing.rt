ghost use Rattle.std.specs.Prelude.{◌≡◌, ◌<◌, [], true, IsTrue, IfOk, OnErr};
ghost use Rattle.std.specs.Vec.{vec_capacity};
ghost use Rattle.rule_core.specs.Infos.{is_orderly};
ghost use Rattle.http_replies.specs.Made.{is_made};
ghost use Rattle.http_replies.specs.Answers.{reply_body, body, answer_bytes, is_made_answer, HasRoom};

use crate::answer::Answer;
use crate::made::{MOST_BODY, is_made, push_made};
use crate::member_list::{members_body, memberships_body};
use crate::names::names_body;
use crate::outcomes::outcomes_body;
use crate::page::page_body;
use crate::refusals::{head_body, refusal_body, request_body};
use crate::verdict_list::verdicts_body;
use desk_core::Reply;
use reply_frames::{MOST_HEAD, frame};
use reports::{csv_rows, earl, site_report, text_report};
use rule_core::RuleInfo;
use snap_tree::OutOfMemory;
use std::alloc::Global;
use std::slice::from_ref;

/// The room that is taken before a change is made: the reply to a change fits into it.
pub const MOST_REPLY: usize = 32_768;

/// The numbers of the limits. It does nothing: the clauses are what it is for.
///
/// The body of a reply to a change has at most 17,000 bytes, and a room of 32,768 is taken before.
pub fn laws_of_limits()
    ensures body { MOST_BODY ≡ 17_000 }
    ensures room { MOST_REPLY ≡ 32_768 }
{}

/// Prints an answer, by the infos of the book. The reply to a change is printed into `room`, without taking
/// memory where this has 32,768 bytes; so printing it never fails then. All else takes memory of its own,
/// and fails for want of it.
#[tactic(auto, unfolding(crate::specs::Answers::answer_bytes))]
pub fn print(
    alloc: Global,
    room: Vec<u8>,
    infos: &[RuleInfo],
    answer: &Answer,
    closes: bool,
) -> Result<Vec<u8>, OutOfMemory>
    requires empty { room.items ≡ [] }
    requires orderly { IsTrue (is_orderly infos.now) }
    ensures bytes { IfOk result (λ bytes. bytes.items ≡ answer_bytes infos.now answer.now closes) }
    ensures full { OnErr result (is_made_answer answer.now ≡ true → vec_capacity room < MOST_REPLY) }
{
    let mut bytes = body(alloc, room, infos, answer)?;
    frame(&mut bytes, answer.status(), answer.kind(), closes)?;
    Ok(bytes)
}

// The body of an answer; where it is the reply to a change, with the room that there was.
fn body(
    alloc: Global,
    room: Vec<u8>,
    infos: &[RuleInfo],
    answer: &Answer,
) -> Result<Vec<u8>, OutOfMemory>
    requires empty { room.items ≡ [] }
    requires orderly { IsTrue (is_orderly infos.now) }
    ensures body { IfOk result (λ bytes. bytes.items ≡ body infos.now answer.now) }
    ensures room { IfOk result (λ bytes. is_made_answer answer.now ≡ true → HasRoom (vec_capacity room) bytes.items (vec_capacity bytes)) }
    ensures full { OnErr result (is_made_answer answer.now ≡ true → vec_capacity room < MOST_BODY) }
{
    match answer {
        Answer::Misread(fault) => head_body(alloc, *fault),
        Answer::Misasked(fault) => request_body(alloc, *fault),
        Answer::Replied(reply) => reply_body(alloc, room, infos, reply),
    }
}

fn reply_body(
    alloc: Global,
    room: Vec<u8>,
    infos: &[RuleInfo],
    reply: &Reply,
) -> Result<Vec<u8>, OutOfMemory>
    requires empty { room.items ≡ [] }
    requires orderly { IsTrue (is_orderly infos.now) }
    ensures body { IfOk result (λ bytes. bytes.items ≡ reply_body infos.now reply.now) }
    ensures room { IfOk result (λ bytes. is_made reply.now ≡ true → HasRoom (vec_capacity room) bytes.items (vec_capacity bytes)) }
    ensures full { OnErr result (is_made reply.now ≡ true → vec_capacity room < MOST_BODY) }
{
    if is_made(reply) {
        made_body(room, infos, reply)
    } else {
        other_body(alloc, infos, reply)
    }
}

// The body of the reply to a change.
#[tactic(auto, using(crate::proofs::MadeBodies::made_is_body))]
fn made_body(mut room: Vec<u8>, infos: &[RuleInfo], reply: &Reply) -> Result<Vec<u8>, OutOfMemory>
    requires empty { room.items ≡ [] }
    requires made { is_made reply.now ≡ true }
    ensures body { IfOk result (λ bytes. bytes.items ≡ reply_body infos.now reply.now) }
    ensures room { IfOk result (λ bytes. HasRoom (vec_capacity room) bytes.items (vec_capacity bytes)) }
    ensures full { OnErr result (vec_capacity room < MOST_BODY) }
{
    push_made(&mut room, infos, reply)?;
    Ok(room)
}

// The body of another reply. One to a change that is too long is none.
#[tactic(auto, using(reports::proofs::Ids::have_texts))]
fn other_body(alloc: Global, infos: &[RuleInfo], reply: &Reply) -> Result<Vec<u8>, OutOfMemory>
    requires { IsTrue (is_orderly infos.now) }
    ensures { IfOk result (λ bytes. bytes.items ≡ reply_body infos.now reply.now) }
{
    match reply {
        Reply::Page(page) => page_body(alloc, page),
        Reply::Outcomes(page) => outcomes_body(alloc, infos, page),
        Reply::Report(page) => text_report(alloc, &page.address, infos, &page.outcomes),
        Reply::Earl(page) => earl(alloc, infos, from_ref(page)),
        Reply::Names(tree) => names_body(alloc, tree),
        Reply::SiteReport(sheet) => site_report(alloc, &sheet.site, infos, sheet.pages.as_slice()),
        Reply::SiteEarl(sheet) => earl(alloc, infos, sheet.pages.as_slice()),
        Reply::SiteCsv(sheet) => csv_rows(alloc, &sheet.site, infos, sheet.pages.as_slice()),
        Reply::Verdicts(told) => verdicts_body(alloc, infos, told),
        Reply::Members { members } => members_body(alloc, members.as_slice()),
        Reply::Memberships { memberships } => memberships_body(alloc, memberships.as_slice()),
        Reply::Refused(refusal) => refusal_body(alloc, refusal),
        Reply::Site { .. }
        | Reply::Member { .. }
        | Reply::Languages { .. }
        | Reply::Stored(_)
        | Reply::Dropped { .. }
        | Reply::Imported { .. }
        | Reply::Judged { .. }
        | Reply::Taken { .. } => Err(OutOfMemory),
    }
}
