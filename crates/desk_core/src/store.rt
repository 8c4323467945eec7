ghost use Rattle.std.specs.Prelude.{◌≡◌, ◌<◌, length, map, IfOk};
ghost use Rattle.judge_core.specs.Outcomes.{outcomes, judgings};
ghost use Rattle.rule_core.specs.Reach.{affected};
ghost use Rattle.desk_core.specs.Costs.{FirstJudges, FirstJudgesLess};
ghost use Rattle.desk_core.specs.InHand.{new_page};
ghost use Rattle.desk_core.specs.Pages.{page_put, stored, stored_by};
ghost use Rattle.desk_core.specs.Serving.{IsTrueTo};

use crate::listed::bare;
use crate::reply::Stored;
use crate::summaries::summary_of;
use audit::audit_page;
use judge_core::{Judgement, Outcomes, infos_of};
use keep_core::{KeptPage, Page, PageHead, PagePut};
use reaudit::reaudit;
use rule_core::{RuleBook, RuleInfo};
use snap_tree::{OutOfMemory, Text, Tree};
use std::alloc::Global;

/// The outcomes of a page by the first of some books.
pub fn audit_by_first<B: RuleBook>(
    alloc: Global,
    books: &mut [B],
    tree: &Tree,
    js: &[Judgement],
) -> Result<Outcomes, OutOfMemory>
    requires { 0 < length books.old }
    ensures rows { IfOk result (λ o. o.rows ≡ outcomes B.book tree.now js.now) }
    ensures costs { FirstJudges B.calls (judgings B.book tree.now) books.old books.new }
{
    audit_page(alloc, &mut books[0], tree, js)
}

/// The outcomes of an edited page by the first of some books, by those that are kept of it.
pub fn reaudit_by_first<B: RuleBook>(
    alloc: Global,
    books: &mut [B],
    kept: &KeptPage,
    tree: &Tree,
) -> Result<Outcomes, OutOfMemory>
    requires some { 0 < length books.old }
    requires address { kept.now.page.tree.address ≡ tree.now.address }
    ensures rows { IsTrueTo B.book kept.now → IfOk result (λ o. o.rows ≡ outcomes B.book tree.now kept.now.judgements) }
    ensures costs { FirstJudgesLess B.calls (IsTrueTo B.book kept.now)
        (length (affected B.book kept.now.page.tree tree.now)) (judgings B.book tree.now) books.old books.new }
{
    let js = kept.judgements.as_slice();
    reaudit(
        alloc,
        &mut books[0],
        &kept.page.tree,
        &kept.outcomes,
        tree,
        js,
    )
}

/// A page as it is put where its tree was edited: its outcomes come of those that are kept.
pub fn page_edited<B: RuleBook>(
    alloc: Global,
    books: &mut [B],
    page: Text,
    rev: u64,
    hand: &Text,
    kept: &KeptPage,
    tree: Tree,
) -> Result<PagePut, OutOfMemory>
    requires some { 0 < length books.old }
    requires address { kept.now.page.tree.address ≡ tree.address }
    ensures page { IfOk result (λ put. put.page ≡ new_page page rev hand.now tree) }
    ensures put { IsTrueTo B.book kept.now → IfOk result (λ put. put ≡ page_put B.book page rev hand.now tree kept.now.judgements) }
    ensures costs { FirstJudgesLess B.calls (IsTrueTo B.book kept.now)
        (length (affected B.book kept.now.page.tree tree)) (judgings B.book tree) books.old books.new }
{
    let outcomes = reaudit_by_first(alloc, books, kept, &tree)?;
    let hand = hand.copy(alloc)?;
    let head = PageHead { page, rev, hand };
    let tree = bare(alloc, &tree)?;
    Ok(PagePut {
        page: Page { head, tree },
        outcomes,
    })
}

/// A page as it is put: with its new revision, who sent it, and its outcomes under its judgements.
pub fn page_put<B: RuleBook>(
    alloc: Global,
    books: &mut [B],
    page: Text,
    rev: u64,
    hand: &Text,
    tree: Tree,
    js: &[Judgement],
) -> Result<PagePut, OutOfMemory>
    requires { 0 < length books.old }
    ensures put { IfOk result (λ put. put ≡ page_put B.book page rev hand.now tree js.now) }
    ensures costs { FirstJudges B.calls (judgings B.book tree) books.old books.new }
{
    let outcomes = audit_by_first(alloc, books, &tree, js)?;
    let hand = hand.copy(alloc)?;
    let head = PageHead { page, rev, hand };
    let tree = bare(alloc, &tree)?;
    Ok(PagePut {
        page: Page { head, tree },
        outcomes,
    })
}

// What is said of a page that is put, by the rules of these infos.
fn stored_by(alloc: Global, infos: &[RuleInfo], put: &PagePut) -> Result<Stored, OutOfMemory>
    ensures { IfOk result (λ s. s ≡ stored_by infos.now put.now) }
{
    Ok(Stored {
        page: put.page.head.page.copy(alloc)?,
        rev: put.page.head.rev,
        summary: summary_of(infos, put.outcomes.rows.as_slice()),
    })
}

/// What is said of a page that is put.
pub fn stored<B: RuleBook>(alloc: Global, book: &B, put: &PagePut) -> Result<Stored, OutOfMemory>
    ensures { IfOk result (λ s. s ≡ stored B.book put.now) }
{
    let infos = infos_of(alloc, book)?;
    stored_by(alloc, infos.as_slice(), put)
}

fn stored_each(
    alloc: Global,
    infos: &[RuleInfo],
    pages: &[PagePut],
) -> Result<Vec<Stored>, OutOfMemory>
    ensures { IfOk result (λ told. told.items ≡ map (stored_by infos.now) pages.now) }
{
    let mut told = Vec::with_capacity(alloc, pages.len())?;
    for put in pages {
        told.push(stored_by(alloc, infos, put)?)?;
    }
    Ok(told)
}

/// What is said of pages that are put at once.
pub fn stored_all<B: RuleBook>(
    alloc: Global,
    book: &B,
    pages: &[PagePut],
) -> Result<Vec<Stored>, OutOfMemory>
    ensures { IfOk result (λ told. told.items ≡ map (stored B.book) pages.now) }
{
    let infos = infos_of(alloc, book)?;
    stored_each(alloc, infos.as_slice(), pages)
}
