ghost use Rattle.std.specs.Prelude.{◌≡◌, ◌≤◌, length};
ghost use Rattle.judge_core.specs.Outcomes.{outcomes};
ghost use Rattle.earl_in.specs.declared.limits.TheConstants.{MOST_CLAIMS};
ghost use Rattle.desk_core.specs.declared.command.Command.TheVariants as command;
ghost use Rattle.desk_core.specs.declared.reply.Reply.TheVariants as reply;
ghost use Rattle.desk_core.specs.Claiming.{added_all, take_earl};
ghost use Rattle.desk_core.specs.State.{PageState, page_state};
ghost use Rattle.desk_core.specs.Steps.{asked_by};
ghost use Rattle.desk_core.specs.Fitting.{AreNames};
ghost use Rattle.desk_core.specs.Serving.{Agrees, Decides, IsTrueTo, JudgesOn};
ghost use Rattle.desk_core.specs.Told.{told_of};

use crate::decided::Decided;
use crate::look::find_kept;
use crate::more_judged::addition;
use crate::refusal::{Needed, Refusal};
use crate::reply::Reply;
use earl_in::{Claim, Taken, take_claims};
use judge_core::{Judgement, Outcomes};
use keep_core::{Keeper, KeptPage};
use rule_core::RuleBook;
use snap_tree::{List, Text};
use std::alloc::Global;

/// Takes claims of another tool on a page: each that is of the evidence that the page has, and isn't known, is
/// added as a judgement of the caller's, all at once. No rule is asked again.
pub fn take_earl<K: Keeper, B: RuleBook>(
    alloc: Global,
    book: &B,
    keeper: &mut K,
    caller: &Text,
    site: Text,
    page: Text,
    claims: &[Option<Claim>],
) -> Result<Decided, Refusal>
    requires names { AreNames site page }
    requires few { length claims.now ≤ MOST_CLAIMS }
    ensures { Decides B.book (asked_by caller.now (command.TakeEarl site page claims.now))
        (told_of K.Keeper keeper.old) (told_of K.Keeper keeper.new) result }
{
    let kept = find_kept(alloc, keeper, Needed::Judge, caller, &site, &page)?;
    decide(alloc, book, caller, site, page, claims, kept)
}

// What is decided on claims on a page, whose outcomes are kept.
fn decide<B: RuleBook>(
    alloc: Global,
    book: &B,
    caller: &Text,
    site: Text,
    page: Text,
    claims: &[Option<Claim>],
    kept: KeptPage,
) -> Result<Decided, Refusal>
    requires { length claims.now ≤ MOST_CLAIMS }
    ensures agrees { IsTrueTo B.book kept → Agrees ⊥ result (take_earl B.book site caller.now page claims.now (page_state kept)) }
    ensures judges { JudgesOn site page result }
{
    if *caller == kept.page.head.hand {
        return Err(Refusal::SameHand);
    }
    let KeptPage {
        page: seen,
        judgements,
        outcomes,
    } = kept;
    let address = seen.tree.address();
    let taken = take_claims(
        alloc,
        address,
        &outcomes,
        judgements.as_slice(),
        caller,
        claims,
    )?;
    added_all(alloc, book, site, page, taken, judgements, &outcomes)
}

// All that were added are one change, and where none was there is none.
fn added_all<B: RuleBook>(
    alloc: Global,
    book: &B,
    site: Text,
    page: Text,
    taken: Taken,
    js: List<Judgement>,
    found: &Outcomes,
) -> Result<Decided, Refusal>
    requires { length taken.added ≤ MOST_CLAIMS }
    ensures agrees { (kept : PageState) → js ≡ kept.judgements → found.now.rows ≡ outcomes B.book kept.page.tree js
        → Agrees ⊥ result (added_all B.book site page taken kept) }
    ensures judges { JudgesOn site page result }
{
    let reply = reply_of(&taken);
    if taken.added.is_empty() {
        return Ok(Decided {
            change: None,
            reply,
        });
    }
    let change = addition(alloc, book, site, page, taken.added, js, found)?;
    Ok(Decided {
        change: Some(change),
        reply,
    })
}

fn reply_of(taken: &Taken) -> Reply
    requires { length taken.now.added ≤ MOST_CLAIMS }
    ensures { result ≡ reply.Taken (length taken.now.added) taken.now.known taken.now.skipped }
{
    Reply::Taken {
        added: taken.added.len() as u32,
        known: taken.known,
        skipped: taken.skipped,
    }
}
