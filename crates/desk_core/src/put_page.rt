ghost use Rattle.std.specs.Prelude.{◌≡◌, ◌<◌, length, true, None, IfOk, IfErr};
ghost use Rattle.snap_tree.specs.Trees.{Document};
ghost use Rattle.snap_tree.specs.Grown.{page_of};
ghost use Rattle.snap_tree.specs.Faults.{tree_fault};
ghost use Rattle.keep_core.specs.Fits.{FitsSite};
ghost use Rattle.desk_core.specs.Refusals.{Decision};
ghost use Rattle.desk_core.specs.Pages.{due, has_room, has_revisions, built};
ghost use Rattle.desk_core.specs.Steps.{asked_by};
ghost use Rattle.desk_core.specs.Fitting.{AreNames};
ghost use Rattle.desk_core.specs.InHand.{putting, put_into};
ghost use Rattle.desk_core.specs.Costs.{put_judgings, FirstJudges};
ghost use Rattle.desk_core.specs.Serving.{Agrees, Decides, Stands};
ghost use Rattle.desk_core.specs.Told.{told_of};
ghost use Rattle.web_address.specs.Address.{IsWebAddress};

use crate::decided::Decided;
use crate::look::{Survey, survey_site};
use crate::refusal::{Limit, Refusal};
use crate::renewing::renewed;
use crate::room::{due, has_revision, has_room};
use crate::sent::SentPage;
use keep_core::Keeper;
use rule_core::RuleBook;
use snap_tree::{BuildFault, Raw, Text, Tree};
use std::alloc::Global;

/// The tree that rows make, and else their first fault.
pub fn build(alloc: Global, page: Option<Text>, raw: Raw) -> Result<Tree, Refusal>
    ensures tree { IfOk result (λ t. (t ≡ page_of raw) × (tree_fault raw.rows ≡ None)) }
    ensures refused { IfErr result (λ r. (next : Document → Decision) → Stands ⊥ r (built page raw next)) }
{
    match Tree::build(alloc, raw) {
        Ok(tree) => Ok(tree),
        Err(BuildFault::Tree(fault)) => Err(Refusal::TreeFault { fault, page }),
        Err(BuildFault::OutOfMemory) => Err(Refusal::OutOfMemory),
    }
}

// What is decided where neither a limit nor the revision stands against it.
fn put_there<B: RuleBook>(
    alloc: Global,
    books: &mut [B],
    caller: &Text,
    sent: SentPage,
    raw: Raw,
    survey: &Survey,
) -> Result<Decided, Refusal>
    requires some { 0 < length books.old }
    requires room { has_room survey.now.current survey.now.pages ≡ true }
    requires revision { has_revisions survey.now.site.counter 1 ≡ true }
    requires current { sent.rev ≡ due survey.now.current }
    requires fits { FitsSite survey.now.site }
    ensures decided { Agrees ⊥ result (put_into B.book caller.now sent raw survey.now) }
    ensures costs { FirstJudges B.calls (put_judgings B.book raw) books.old books.new }
{
    let built = build(alloc, None, raw)?;
    let tree = built.with_langs(alloc, &survey.site.languages)?;
    let js = survey.judgements.as_slice();
    renewed(alloc, books, caller, sent, survey.site.counter, js, tree)
}

// What is decided on a page, by what was found where it is to be put.
fn decide<B: RuleBook>(
    alloc: Global,
    books: &mut [B],
    caller: &Text,
    sent: SentPage,
    raw: Raw,
    survey: &Survey,
) -> Result<Decided, Refusal>
    requires some { 0 < length books.old }
    requires fits { FitsSite survey.now.site }
    ensures decided { Agrees ⊥ result (put_into B.book caller.now sent raw survey.now) }
    ensures costs { FirstJudges B.calls (put_judgings B.book raw) books.old books.new }
{
    if !has_room(survey.current, survey.pages) {
        return Err(Refusal::PageLimit {
            limit: Limit::Pages,
        });
    }
    if !has_revision(survey.site.counter) {
        return Err(Refusal::PageLimit {
            limit: Limit::Revisions,
        });
    }
    let current = due(survey.current);
    if sent.rev != current {
        return Err(Refusal::StaleRevision {
            current,
            page: None,
        });
    }
    put_there(alloc, books, caller, sent, raw, survey)
}

/// Puts a page, in the place of the one that the sender saw.
pub fn put_page<K: Keeper, B: RuleBook>(
    alloc: Global,
    books: &mut [B],
    keeper: &mut K,
    caller: &Text,
    sent: SentPage,
    raw: Raw,
) -> Result<Decided, Refusal>
    requires some { 0 < length books.old }
    requires names { AreNames sent.site sent.page }
    requires address { IsWebAddress raw.address }
    ensures decides { Decides B.book (asked_by caller.now (putting sent raw))
        (told_of K.Keeper keeper.old) (told_of K.Keeper keeper.new) result }
    ensures costs { FirstJudges B.calls (put_judgings B.book raw) books.old books.new }
{
    let survey = survey_site(alloc, keeper, caller, &sent.site, &sent.page)?;
    decide(alloc, books, caller, sent, raw, &survey)
}
