ghost use Rattle.std.specs.Prelude.{◌≡◌, ◌<◌, length, map, true, None, is_none, IsTrue, IfOk, IfErr, OnOk};
ghost use Rattle.snap_tree.specs.Langs.{AreLangs};
ghost use Rattle.audit.specs.Pages.{pages_outcomes, pages_judgings};
ghost use Rattle.keep_core.specs.Names.{is_name};
ghost use Rattle.desk_core.specs.declared.command.Command.TheVariants.{Import};
ghost use Rattle.desk_core.specs.Refusals.{Decision, unless_refused};
ghost use Rattle.desk_core.specs.Pages.{has_room_for, has_revisions};
ghost use Rattle.std.specs.Option.{option_copied};
ghost use Rattle.std.specs.List.{find};
ghost use Rattle.desk_core.specs.Fitting.{FitsEntries};
ghost use Rattle.desk_core.specs.Steps.{asked_by};
ghost use Rattle.desk_core.specs.Costs.{import_judgings, JudgeAtMost};
ghost use Rattle.desk_core.specs.InHand.{import_arrived};
ghost use Rattle.desk_core.specs.Placing.{entries_of, new_among, current_of, is_stale, stale_among, work_listed, puts_by, storing_all};
ghost use Rattle.desk_core.specs.Serving.{Agrees, Decides, Stands};
ghost use Rattle.desk_core.specs.Told.{told_of};

use crate::arrival::{Arrival, arrive};
use crate::building::build_all;
use crate::built::{Built, heads_from, put_all};
use crate::command::Entry;
use crate::decided::Decided;
use crate::listed::work_listed;
use crate::placed::Placed;
use crate::refusal::{Limit, Refusal};
use crate::reply::Reply;
use crate::room::{due, has_revisions, has_room_for};
use crate::store::stored_all;
use audit::{PageWork, audit_pages, busy};
use judge_core::Outcomes;
use keep_core::{Change, Keeper};
use rule_core::RuleBook;
use snap_tree::{List, OutOfMemory, Text};
use std::alloc::Global;
use std::collections::VecDeque;
use std::thread::Threads;

/// Puts pages, all or none, each in the place of the one that the sender saw. Parts of them are built and
/// audited side by side, as many as there are books or pages, where threads can be made.
pub fn import<R: Threads + Sync, K: Keeper, B: RuleBook + Send>(
    rt: &R,
    alloc: Global,
    books: &mut [B],
    keeper: &mut K,
    caller: &Text,
    site: Text,
    entries: List<Entry>,
) -> Result<Decided, Refusal>
    requires some { 0 < length books.old }
    requires site { IsTrue (is_name site) }
    requires entries { FitsEntries entries }
    ensures decides { Decides B.book (asked_by caller.now (Import site entries))
        (told_of K.Keeper keeper.old) (told_of K.Keeper keeper.new) result }
    ensures counted { JudgeAtMost B.calls (import_judgings B.book entries) books.old books.new }
{
    let arrival = arrive(alloc, keeper, caller, &site, entries)?;
    decide(rt, alloc, books, caller, site, arrival)
}

// What is decided on pages, by what was found in their places.
#[tactic(auto, using(crate::proofs::ImportLaws::no_room, crate::proofs::ImportLaws::no_revisions, crate::proofs::ImportLaws::refused_stale))]
fn decide<R: Threads + Sync, B: RuleBook + Send>(
    rt: &R,
    alloc: Global,
    books: &mut [B],
    caller: &Text,
    site: Text,
    arrival: Arrival,
) -> Result<Decided, Refusal>
    requires some { 0 < length books.old }
    requires languages { AreLangs arrival.languages }
    ensures decided { Agrees ⊥ result (import_arrived B.book site caller.now arrival) }
    ensures counted { JudgeAtMost B.calls (import_judgings B.book (entries_of arrival.placed)) books.old books.new }
{
    if !has_room_for(new_among(arrival.placed.as_slice()), arrival.pages) {
        return Err(Refusal::PageLimit {
            limit: Limit::Pages,
        });
    }
    if !has_revisions(arrival.counter, arrival.placed.len()) {
        return Err(Refusal::PageLimit {
            limit: Limit::Revisions,
        });
    }
    check_current(alloc, &arrival.placed)?;
    import_there(rt, alloc, books, caller, site, arrival)
}

// The page of an entry isn't there.
fn is_new(placed: &Placed) -> bool
    ensures { result ≡ is_none placed.now.current }
{
    placed.current.is_none()
}

// The entries whose page isn't there.
fn new_among(placed: &[Placed]) -> usize
    ensures { result ≡ new_among placed.now }
{
    placed.iter().filter(|p| is_new(p)).count()
}

// The revision of the page in an entry's place; 0 for none.
fn current_of(placed: &Placed) -> u64
    ensures { result ≡ current_of placed.now }
{
    due(placed.current)
}

fn first_stale(placed: &[Placed]) -> Option<&Placed>
    ensures { option_copied result ≡ find is_stale placed.now }
{
    placed.iter().find(|p| p.entry.rev != current_of(p))
}

// Refuses where some entry's revision isn't its page's.
fn check_current(alloc: Global, placed: &List<Placed>) -> Result<(), Refusal>
    ensures fresh { OnOk result (stale_among placed.now ≡ None) }
    ensures refused { IfErr result (λ r. (next : Decision) → Stands ⊥ r (unless_refused (stale_among placed.now) next)) }
{
    match first_stale(placed.as_slice()) {
        Some(stale) => {
            let page = stale.entry.page.copy(alloc)?;
            Err(Refusal::StaleRevision {
                current: current_of(stale),
                page: Some(page),
            })
        }
        None => Ok(()),
    }
}

// What is decided where neither a limit nor a revision stands against it.
#[tactic(auto, using(crate::proofs::Fitted::has_revisions_le))]
fn import_there<R: Threads + Sync, B: RuleBook + Send>(
    rt: &R,
    alloc: Global,
    books: &mut [B],
    caller: &Text,
    site: Text,
    arrival: Arrival,
) -> Result<Decided, Refusal>
    requires some { 0 < length books.old }
    requires languages { AreLangs arrival.languages }
    requires room { has_room_for (new_among arrival.placed) arrival.pages ≡ true }
    requires revisions { has_revisions arrival.counter (length arrival.placed) ≡ true }
    requires fresh { stale_among arrival.placed ≡ None }
    ensures decided { Agrees ⊥ result (import_arrived B.book site caller.now arrival) }
    ensures counted { JudgeAtMost B.calls (import_judgings B.book (entries_of arrival.placed)) books.old books.new }
{
    let counter = arrival.counter + arrival.placed.len() as u64;
    let heads = heads_from(alloc, caller, arrival.counter, arrival.placed.as_slice())?;
    let placed = VecDeque::from_vec(arrival.placed.into_vec());
    let works = build_all(rt, &alloc, busy(books.len(), placed.len()), placed)?;
    let works = List::from_vec(works);
    let built = Built { heads, works };
    store_all(rt, alloc, books, site, &arrival.languages, counter, built)
}

// Pages that are put at once, with what is said of them.
#[tactic(auto, using(crate::proofs::ImportLaws::stored_is))]
fn store_all<R: Threads + Sync, B: RuleBook + Send>(
    rt: &R,
    alloc: Global,
    books: &mut [B],
    site: Text,
    languages: &List<Text>,
    counter: u64,
    built: Built,
) -> Result<Decided, Refusal>
    requires some { 0 < length books.old }
    requires languages { AreLangs languages.now }
    ensures decided { Agrees ⊥ result (storing_all B.book site counter (puts_by B.book languages.now built.heads built.works)) }
    ensures counted { JudgeAtMost B.calls (pages_judgings B.book built.works) books.old books.new }
{
    let outcomes = audit_listed(rt, alloc, books, languages, built.works.as_slice())?;
    let pages = put_all(alloc, built, outcomes)?;
    let told = stored_all(alloc, &books[0], pages.as_slice())?;
    Ok(Decided {
        change: Some(Change::PutPages {
            site,
            counter,
            pages,
        }),
        reply: Reply::Imported {
            pages: List::from_vec(told),
        },
    })
}

// The outcomes of pages that were built, with the languages of their site.
fn audit_listed<R: Threads + Sync, B: RuleBook + Send>(
    rt: &R,
    alloc: Global,
    books: &mut [B],
    languages: &List<Text>,
    works: &[PageWork],
) -> Result<Vec<Outcomes>, OutOfMemory>
    requires some { 0 < length books.old }
    requires languages { AreLangs languages.now }
    ensures outcomes { IfOk result (λ all. all.items ≡ pages_outcomes B.book (map (work_listed languages.now) works.now)) }
    ensures counted { JudgeAtMost B.calls (pages_judgings B.book works.now) books.old books.new }
{
    let listed = works_listed(alloc, languages, works)?;
    audit_pages(rt, alloc, books, listed.as_slice())
}

// The pages with these languages.
fn works_listed(
    alloc: Global,
    languages: &List<Text>,
    works: &[PageWork],
) -> Result<Vec<PageWork>, OutOfMemory>
    requires { AreLangs languages.now }
    ensures { IfOk result (λ all. all.items ≡ map (work_listed languages.now) works.now) }
{
    let mut all = Vec::with_capacity(alloc, works.len())?;
    for work in works {
        all.push(work_listed(alloc, languages, work)?)?;
    }
    Ok(all)
}
