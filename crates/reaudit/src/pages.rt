ghost use Rattle.std.specs.Prelude.{◌≡◌, ◌+◌, ◌<◌, ◌≤◌, ◌++◌, List, length, sum_by, IfOk, IsOkAnd};
ghost use Rattle.std.specs.Thread.{IsSend, IsSync};
ghost use Rattle.reaudit.specs.declared.pages.ReWork.{ReWork};
ghost use Rattle.reaudit.specs.Pages.{AreVersions, WereFound, new_outcomes, reached_pairs, most_judgings};

use crate::edited::reaudit;
use audit::{busy, share};
use judge_core::{Judgement, Outcomes};
use rule_core::RuleBook;
use snap_tree::{List, OutOfMemory, Tree};
use std::alloc::Global;
use std::thread::{Threads, join_mut};

/// A page to be audited anew: its old tree with the outcomes that were found on it, and its new tree, under
/// the judgements under which both are.
#[derive(Drop)]
pub struct ReWork {
    pub old: Tree,
    pub rows: Outcomes,
    pub new: Tree,
    pub judgements: List<Judgement>,
}

/// The outcomes of each page's new tree, in the order of the pages, whatever the number of books: there is at
/// least one. Where each page's rows are those of its old tree, the sum of the books' counts of judgings rises by
/// at most the pairs of an atomic rule and a node on which the trees differ for the rule; and whatever the rows,
/// by at most the atomic rules times the nodes of all new trees. Where threads can be made, the books audit parts
/// of the pages side by side, as `audit_pages` has it. Fails only for want of memory.
pub fn reaudit_pages<R: Threads + Sync, B: RuleBook + Send>(
    rt: &R,
    alloc: Global,
    books: &mut [B],
    pages: &[ReWork],
) -> Result<Vec<Outcomes>, OutOfMemory>
    requires some { 0 < length books.old }
    requires versions { AreVersions pages.now }
    ensures outcomes { WereFound B.book pages.now → IfOk result (λ all. all.items ≡ new_outcomes B.book pages.now) }
    ensures counted { WereFound B.book pages.now
        → sum_by B.calls books.new ≤ sum_by B.calls books.old + reached_pairs B.book pages.now }
    ensures within { sum_by B.calls books.new ≤ sum_by B.calls books.old + most_judgings B.book pages.now }
    ensures as_many { IfOk result (λ all. length all.items ≡ length pages.now) }
{
    let (busy, _) = books.split_at_mut(busy(books.len(), pages.len()));
    reaudit_part(rt, &alloc, pages, busy)
}

// The pages by the books: the first book audits its share of them in a new thread, and this thread shares the
// others out.
#[cycle(sharing)]
#[tactic(auto, using(crate::proofs::Halves::all_left, crate::proofs::Halves::all_right))]
fn reaudit_part<R: Threads + Sync, B: RuleBook + Send>(
    rt: &R,
    alloc: &Global,
    pages: &[ReWork],
    books: &mut [B],
) -> Result<Vec<Outcomes>, OutOfMemory>
    requires some { 0 < length books.old }
    requires versions { AreVersions pages.now }
    ensures outcomes { WereFound B.book pages.now → IfOk result (λ all. all.items ≡ new_outcomes B.book pages.now) }
    ensures counted { WereFound B.book pages.now
        → sum_by B.calls books.new ≤ sum_by B.calls books.old + reached_pairs B.book pages.now }
    ensures within { sum_by B.calls books.new ≤ sum_by B.calls books.old + most_judgings B.book pages.now }
    ensures as_many { IfOk result (λ all. length all.items ≡ length pages.now) }
{
    if books.len() == 1 {
        return reaudit_in_turn(*alloc, &mut books[0], pages);
    }
    let (first_pages, later_pages) = pages.split_at(share(pages.len(), books.len()));
    let (first_books, later_books) = books.split_at_mut(1);
    let (first, later) = reaudit_both(
        rt,
        alloc,
        first_pages,
        first_books,
        later_pages,
        later_books,
    );
    joined(first, later)
}

// Two parts of the pages by two parts of the books, the first in a new thread.
#[cycle(sharing)]
fn reaudit_both<R: Threads + Sync, B: RuleBook + Send>(
    rt: &R,
    alloc: &Global,
    first_pages: &[ReWork],
    first_books: &mut [B],
    later_pages: &[ReWork],
    later_books: &mut [B],
) -> (
    Result<Vec<Outcomes>, OutOfMemory>,
    Result<Vec<Outcomes>, OutOfMemory>,
)
    requires some_first { 0 < length first_books.old }
    requires some_later { 0 < length later_books.old }
    requires versions_first { AreVersions first_pages.now }
    requires versions_later { AreVersions later_pages.now }
    ensures first { WereFound B.book first_pages.now → IfOk result.0 (λ all. all.items ≡ new_outcomes B.book first_pages.now) }
    ensures later { WereFound B.book later_pages.now → IfOk result.1 (λ all. all.items ≡ new_outcomes B.book later_pages.now) }
    ensures first_counted { WereFound B.book first_pages.now
        → sum_by B.calls first_books.new ≤ sum_by B.calls first_books.old + reached_pairs B.book first_pages.now }
    ensures later_counted { WereFound B.book later_pages.now
        → sum_by B.calls later_books.new ≤ sum_by B.calls later_books.old + reached_pairs B.book later_pages.now }
    ensures first_within { sum_by B.calls first_books.new ≤ sum_by B.calls first_books.old + most_judgings B.book first_pages.now }
    ensures later_within { sum_by B.calls later_books.new ≤ sum_by B.calls later_books.old + most_judgings B.book later_pages.now }
    ensures first_many { IfOk result.0 (λ all. length all.items ≡ length first_pages.now) }
    ensures later_many { IfOk result.1 (λ all. length all.items ≡ length later_pages.now) }
{
    let mut first = || -> Result<Vec<Outcomes>, OutOfMemory>
        requires sync { IsSync R.row × IsSend B.row }
        requires some { 0 < length first_books.now }
        requires versions { AreVersions first_pages.now }
        ensures outcomes { WereFound B.book first_pages.entry.now → IfOk result (λ all. all.items ≡ new_outcomes B.book first_pages.entry.now) }
        ensures counted { WereFound B.book first_pages.entry.now
            → sum_by B.calls first_books.exit.now ≤ sum_by B.calls first_books.entry.now + reached_pairs B.book first_pages.entry.now }
        ensures within { sum_by B.calls first_books.exit.now ≤ sum_by B.calls first_books.entry.now
            + most_judgings B.book first_pages.entry.now }
        ensures as_many { IfOk result (λ all. length all.items ≡ length first_pages.entry.now) }
    { reaudit_part(rt, alloc, first_pages, first_books) };
    let mut later = || -> Result<Vec<Outcomes>, OutOfMemory>
        requires sync { IsSync R.row × IsSend B.row }
        requires some { 0 < length later_books.now }
        requires versions { AreVersions later_pages.now }
        ensures outcomes { WereFound B.book later_pages.entry.now → IfOk result (λ all. all.items ≡ new_outcomes B.book later_pages.entry.now) }
        ensures counted { WereFound B.book later_pages.entry.now
            → sum_by B.calls later_books.exit.now ≤ sum_by B.calls later_books.entry.now + reached_pairs B.book later_pages.entry.now }
        ensures within { sum_by B.calls later_books.exit.now ≤ sum_by B.calls later_books.entry.now
            + most_judgings B.book later_pages.entry.now }
        ensures as_many { IfOk result (λ all. length all.items ≡ length later_pages.entry.now) }
    { reaudit_part(rt, alloc, later_pages, later_books) };
    join_mut(rt, &mut first, &mut later)
}

// Some pages, one after another, by one book.
fn reaudit_in_turn<B: RuleBook>(
    alloc: Global,
    book: &mut B,
    pages: &[ReWork],
) -> Result<Vec<Outcomes>, OutOfMemory>
    requires { AreVersions pages.now }
    ensures outcomes { WereFound B.book pages.now → IfOk result (λ all. all.items ≡ new_outcomes B.book pages.now) }
    ensures counted { WereFound B.book pages.now → B.calls book.new ≤ B.calls book.old + reached_pairs B.book pages.now }
    ensures within { B.calls book.new ≤ B.calls book.old + most_judgings B.book pages.now }
    ensures as_many { IfOk result (λ all. length all.items ≡ length pages.now) }
{
    let mut all = Vec::with_capacity(alloc, pages.len())?;
    for page in pages {
        let js = page.judgements.as_slice();
        let outcomes = reaudit(alloc, book, &page.old, &page.rows, &page.new, js)?;
        all.push(outcomes)?;
    }
    Ok(all)
}

// The outcomes of two parts of the pages, where both have them.
fn joined(
    first: Result<Vec<Outcomes>, OutOfMemory>,
    later: Result<Vec<Outcomes>, OutOfMemory>,
) -> Result<Vec<Outcomes>, OutOfMemory>
    ensures { IfOk result (λ all. IsOkAnd first (λ a. IsOkAnd later (λ b. all.items ≡ a.items ++ b.items))) }
{
    let mut all = first?;
    let mut others = later?;
    all.append(&mut others)?;
    Ok(all)
}
