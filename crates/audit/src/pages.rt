ghost use Rattle.std.specs.Prelude.{◌≡◌, ◌+◌, ◌*◌, ◌/◌, ◌<◌, ◌≤◌, ◌++◌, length, sum_by, min, max, IfOk, IsOkAnd};
ghost use Rattle.std.specs.Thread.{IsSend, IsSync};
ghost use Rattle.audit.specs.Pages.{pages_outcomes, pages_judgings};

use crate::page::audit_page;
use judge_core::{Judgement, Outcomes};
use rule_core::RuleBook;
use snap_tree::{List, OutOfMemory, Tree};
use std::alloc::Global;
use std::thread::{Threads, join_mut};

/// A page to be audited: its tree, and the judgements under which its outcomes are wanted.
#[derive(Drop)]
pub struct PageWork {
    pub tree: Tree,
    pub judgements: List<Judgement>,
}

/// The outcomes of each page, in the order of the pages, whatever the number of books: there is at least
/// one. Where threads can be made, the books audit parts of the pages side by side; where there are fewer
/// pages than books, some books audit none, and no thread is made for those. The sum of their counts of
/// judgings rises by at most the atomic rules times the nodes of all pages. Fails only for want of memory.
pub fn audit_pages<R: Threads + Sync, B: RuleBook + Send>(
    rt: &R,
    alloc: Global,
    books: &mut [B],
    pages: &[PageWork],
) -> Result<Vec<Outcomes>, OutOfMemory>
    requires { 0 < length books.old }
    ensures outcomes { IfOk result (λ all. all.items ≡ pages_outcomes B.book pages.now) }
    ensures counted { sum_by B.calls books.new ≤ sum_by B.calls books.old
        + pages_judgings B.book pages.now }
{
    let (busy, _) = books.split_at_mut(busy(books.len(), pages.len()));
    audit_part(rt, &alloc, pages, busy)
}

// The pages by the books: the first book audits its share of them in a new thread, and this thread shares
// the others out. So one thread makes all the others: threads that are made by new threads are often put on
// the processor of those that made them, beside an idle one.
#[cycle(sharing)]
fn audit_part<R: Threads + Sync, B: RuleBook + Send>(
    rt: &R,
    alloc: &Global,
    pages: &[PageWork],
    books: &mut [B],
) -> Result<Vec<Outcomes>, OutOfMemory>
    requires { 0 < length books.old }
    ensures outcomes { IfOk result (λ all. all.items ≡ pages_outcomes B.book pages.now) }
    ensures counted { sum_by B.calls books.new ≤ sum_by B.calls books.old
        + pages_judgings B.book pages.now }
{
    if books.len() == 1 {
        return audit_in_turn(*alloc, &mut books[0], pages);
    }
    let (first_pages, later_pages) = pages.split_at(share(pages.len(), books.len()));
    let (first_books, later_books) = books.split_at_mut(1);
    let (first, later) = audit_both(
        rt,
        alloc,
        first_pages,
        first_books,
        later_pages,
        later_books,
    );
    joined(first, later)
}

// Two parts of the pages by two parts of the books, the first in a new thread.
#[cycle(sharing)]
fn audit_both<R: Threads + Sync, B: RuleBook + Send>(
    rt: &R,
    alloc: &Global,
    first_pages: &[PageWork],
    first_books: &mut [B],
    later_pages: &[PageWork],
    later_books: &mut [B],
) -> (
    Result<Vec<Outcomes>, OutOfMemory>,
    Result<Vec<Outcomes>, OutOfMemory>,
)
    requires some_first { 0 < length first_books.old }
    requires some_later { 0 < length later_books.old }
    ensures first { IfOk result.0 (λ all. all.items ≡ pages_outcomes B.book first_pages.now) }
    ensures later { IfOk result.1 (λ all. all.items ≡ pages_outcomes B.book later_pages.now) }
    ensures first_counted { sum_by B.calls first_books.new ≤ sum_by B.calls first_books.old
        + pages_judgings B.book first_pages.now }
    ensures later_counted { sum_by B.calls later_books.new ≤ sum_by B.calls later_books.old
        + pages_judgings B.book later_pages.now }
{
    let mut first = || -> Result<Vec<Outcomes>, OutOfMemory>
        requires sync { IsSync R.row × IsSend B.row }
        requires some { 0 < length first_books.now }
        ensures outcomes { IfOk result (λ all. all.items ≡ pages_outcomes B.book first_pages.entry.now) }
        ensures counted { sum_by B.calls first_books.exit.now ≤ sum_by B.calls first_books.entry.now
            + pages_judgings B.book first_pages.entry.now }
    { audit_part(rt, alloc, first_pages, first_books) };
    let mut later = || -> Result<Vec<Outcomes>, OutOfMemory>
        requires sync { IsSync R.row × IsSend B.row }
        requires some { 0 < length later_books.now }
        ensures outcomes { IfOk result (λ all. all.items ≡ pages_outcomes B.book later_pages.entry.now) }
        ensures counted { sum_by B.calls later_books.exit.now ≤ sum_by B.calls later_books.entry.now
            + pages_judgings B.book later_pages.entry.now }
    { audit_part(rt, alloc, later_pages, later_books) };
    join_mut(rt, &mut first, &mut later)
}

/// How many of so many workers have a page to work on: no more than there are pages, and at least one.
pub fn busy(workers: usize, pages: usize) -> usize
    requires { 0 < workers }
    ensures busy { result ≡ min workers (max 1 pages) }
    ensures some { 0 < result }
    ensures within { result ≤ workers }
{
    workers.min(pages.max(1))
}

/// How many pages the next of so many workers takes: its part of them, rounded down.
#[tactic(auto, using(crate::proofs::Shares::share_within))]
pub fn share(pages: usize, workers: usize) -> usize
    requires { 0 < workers }
    ensures share { result ≡ pages / workers }
    ensures within { result ≤ pages }
{
    pages / workers
}

// Some pages, one after another, by one book.
fn audit_in_turn<B: RuleBook>(
    alloc: Global,
    book: &mut B,
    pages: &[PageWork],
) -> Result<Vec<Outcomes>, OutOfMemory>
    ensures outcomes { IfOk result (λ all. all.items ≡ pages_outcomes B.book pages.now) }
    ensures counted { B.calls book.new ≤ B.calls book.old + pages_judgings B.book pages.now }
{
    let mut all = Vec::with_capacity(alloc, pages.len())?;
    for page in pages {
        let outcomes = audit_page(alloc, book, &page.tree, page.judgements.as_slice())?;
        all.push(outcomes)?;
    }
    Ok(all)
}

// The outcomes of two parts of the pages, where both have them.
fn joined(
    first: Result<Vec<Outcomes>, OutOfMemory>,
    later: Result<Vec<Outcomes>, OutOfMemory>,
) -> Result<Vec<Outcomes>, OutOfMemory>
    ensures { IfOk result (λ all. IsOkAnd first (λ a. IsOkAnd later (λ b. all.items ≡ a.items ++ b.items))) }
{
    let mut all = first?;
    let mut others = later?;
    all.append(&mut others)?;
    Ok(all)
}
