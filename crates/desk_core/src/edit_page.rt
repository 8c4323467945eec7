ghost use Rattle.std.specs.Prelude.{◌≡◌, ◌<◌, drop, length, sum_by, true, Ok, IfOk, IfErr};
ghost use Rattle.snap_tree.specs.Trees.{Document, with_trees};
ghost use Rattle.snap_edit.specs.Edits.{edited_all};
ghost use Rattle.desk_core.specs.Refusals.{Decision};
ghost use Rattle.desk_core.specs.Pages.{has_revisions, edited};
ghost use Rattle.desk_core.specs.Costs.{edit_judgings, edit_pairs, Costs, FirstJudgesLess};
ghost use Rattle.desk_core.specs.State.{page_state};
ghost use Rattle.desk_core.specs.Steps.{asked_by};
ghost use Rattle.desk_core.specs.Fitting.{AreNames};
ghost use Rattle.desk_core.specs.InHand.{editing, edit_kept};
ghost use Rattle.desk_core.specs.Serving.{Agrees, Decides, Edits, FitsListed, IsTrueTo, Stands};
ghost use Rattle.desk_core.specs.Told.{told_of};

use crate::decided::Decided;
use crate::look::find_whole;
use crate::refusal::{Limit, Needed, Refusal};
use crate::renewing::edited;
use crate::room::has_revision;
use crate::sent::SentPage;
use keep_core::{Keeper, KeptPage, Site};
use rule_core::RuleBook;
use snap_edit::{Edit, EditFault, apply};
use snap_tree::{List, Text, Tree};
use std::alloc::Global;

// The edited page, and else the first fault of the edits.
fn edit_tree(alloc: Global, tree: &Tree, edits: &[Edit]) -> Result<Tree, Refusal>
    ensures edited { IfOk result (λ t. edited_all tree.now.trees edits.now ≡ Ok t.trees) }
    ensures kept { IfOk result (λ t. t ≡ with_trees tree.now t.trees) }
    ensures refused { IfErr result (λ r. (next : Document → Decision)
        → Stands ⊥ r (edited tree.now (edited_all tree.now.trees edits.now) next)) }
{
    match apply(alloc, tree, edits) {
        Ok(new) => Ok(new),
        Err(EditFault::At { index, kind }) => Err(Refusal::EditFault { index, kind }),
        Err(EditFault::OutOfMemory) => Err(Refusal::OutOfMemory),
    }
}

// What is decided where neither the limit nor the revision stands against it.
fn edit_there<B: RuleBook>(
    alloc: Global,
    books: &mut [B],
    caller: &Text,
    sent: SentPage,
    edits: &[Edit],
    site: &Site,
    kept: &KeptPage,
) -> Result<Decided, Refusal>
    requires some { 0 < length books.old }
    requires revision { has_revisions site.now.counter 1 ≡ true }
    requires current { sent.rev ≡ kept.now.page.head.rev }
    requires names { AreNames sent.site sent.page }
    requires fits { FitsListed kept.now.page }
    ensures decided { IsTrueTo B.book kept.now → Agrees ⊥ result (edit_kept B.book caller.now sent edits.now site.now kept.now) }
    ensures edits { Edits sent.site sent.page result }
    ensures costs { FirstJudgesLess B.calls (IsTrueTo B.book kept.now)
        (edit_pairs B.book edits.now (page_state kept.now)) (edit_judgings B.book edits.now (page_state kept.now)) books.old books.new }
{
    let tree = edit_tree(alloc, &kept.page.tree, edits)?;
    edited(alloc, books, caller, sent, site.counter, kept, tree)
}

// What is decided on edits of a page that was found.
fn decide<B: RuleBook>(
    alloc: Global,
    books: &mut [B],
    caller: &Text,
    sent: SentPage,
    edits: &[Edit],
    site: &Site,
    kept: &KeptPage,
) -> Result<Decided, Refusal>
    requires some { 0 < length books.old }
    requires names { AreNames sent.site sent.page }
    requires fits { FitsListed kept.now.page }
    ensures decided { IsTrueTo B.book kept.now → Agrees ⊥ result (edit_kept B.book caller.now sent edits.now site.now kept.now) }
    ensures edits { Edits sent.site sent.page result }
    ensures costs { FirstJudgesLess B.calls (IsTrueTo B.book kept.now)
        (edit_pairs B.book edits.now (page_state kept.now)) (edit_judgings B.book edits.now (page_state kept.now)) books.old books.new }
{
    if !has_revision(site.counter) {
        return Err(Refusal::PageLimit {
            limit: Limit::Revisions,
        });
    }
    let current = kept.page.head.rev;
    if sent.rev != current {
        return Err(Refusal::StaleRevision {
            current,
            page: None,
        });
    }
    edit_there(alloc, books, caller, sent, edits, site, kept)
}

/// Edits the page that the sender saw. Its outcomes are found anew from its kept ones: only what the edits reach is judged.
pub fn edit_page<K: Keeper, B: RuleBook>(
    alloc: Global,
    books: &mut [B],
    keeper: &mut K,
    caller: &Text,
    sent: SentPage,
    edits: List<Edit>,
) -> Result<Decided, Refusal>
    requires some { 0 < length books.old }
    requires names { AreNames sent.site sent.page }
    ensures decides { Decides B.book (asked_by caller.now (editing sent edits))
        (told_of K.Keeper keeper.old) (told_of K.Keeper keeper.new) result }
    ensures costs { Costs B.book (editing sent edits) (K.tables keeper.old) (K.tables keeper.new) (sum_by B.calls books.old) (sum_by B.calls books.new) }
    ensures others { drop 1 books.new ≡ drop 1 books.old }
{
    let found = find_whole(
        alloc,
        keeper,
        Needed::Editor,
        caller,
        &sent.site,
        &sent.page,
    )?;
    decide(
        alloc,
        books,
        caller,
        sent,
        edits.as_slice(),
        &found.0,
        &found.1,
    )
}
