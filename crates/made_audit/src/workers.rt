ghost use Rattle.std.specs.Prelude.{◌≡◌, ◌+◌, ◌<◌, ◌≤◌, ◌^◌, [], ◌∷◌, length, sum_by, IfOk};
ghost use Rattle.std.specs.Thread.{IsSend, IsSync};
ghost use Rattle.audit.specs.Pages.{pages_judgings};
ghost use Rattle.made_audit.specs.Line.{Numbered, come_to, made_work, span_works};

use crate::counted::{Counted, joined};
use crate::span::Span;
use crate::sums::{nodes_of, sums_of};
use audit::{PageWork, audit_pages, busy, share};
use made_pages::made_tree;
use rule_core::{RuleBook, RuleInfo};
use snap_tree::{List, OutOfMemory};
use std::alloc::Global;
use std::slice::from_ref;
use std::thread::{Threads, join_mut};

/// What pages that a number makes come to by these infos of the books, whatever the number of books: there is
/// at least one. Each book's worker makes the pages of its share and lets go of each once it is counted, so that
/// nothing but the counts of the shares is left to one thread.
pub fn count_pages<R: Threads + Sync, B: RuleBook + Send>(
    rt: &R,
    alloc: Global,
    infos: &[RuleInfo],
    span: &Span,
    books: &mut [B],
) -> Result<Counted, OutOfMemory>
    requires some { 0 < length books.old }
    requires known { infos.now ≡ B.book.infos }
    requires numbered { Numbered span.now }
    ensures counted { IfOk result (λ c. c ≡ come_to B.book (span_works span.now)) }
    ensures judged { sum_by B.calls books.new ≤ sum_by B.calls books.old
        + pages_judgings B.book (span_works span.now) }
{
    let (busy, _) = books.split_at_mut(busy(books.len(), span.pages as usize));
    count_part(rt, &alloc, infos, span, busy)
}

// The pages by the books: the first book's worker counts its share of them in a new thread, and this thread
// shares the others out, so that one thread makes all the others.
#[cycle(sharing)]
#[tactic(auto, using(crate::proofs::Spans::come_to_append))]
fn count_part<R: Threads + Sync, B: RuleBook + Send>(
    rt: &R,
    alloc: &Global,
    infos: &[RuleInfo],
    span: &Span,
    books: &mut [B],
) -> Result<Counted, OutOfMemory>
    requires some { 0 < length books.old }
    requires known { infos.now ≡ B.book.infos }
    requires numbered { Numbered span.now }
    ensures counted { IfOk result (λ c. c ≡ come_to B.book (span_works span.now)) }
    ensures judged { sum_by B.calls books.new ≤ sum_by B.calls books.old
        + pages_judgings B.book (span_works span.now) }
{
    if books.len() == 1 {
        return count_in_turn(rt, *alloc, infos, span, books);
    }
    let pages = share(span.pages as usize, books.len()) as u32;
    let (first_span, later_span) = span.split(pages);
    let (first_books, later_books) = books.split_at_mut(1);
    let (first, later) = count_both(
        rt,
        alloc,
        infos,
        &first_span,
        first_books,
        &later_span,
        later_books,
    );
    joined(first, later)
}

// Two parts of the pages by two parts of the books, the first in a new thread.
#[cycle(sharing)]
fn count_both<R: Threads + Sync, B: RuleBook + Send>(
    rt: &R,
    alloc: &Global,
    infos: &[RuleInfo],
    first_span: &Span,
    first_books: &mut [B],
    later_span: &Span,
    later_books: &mut [B],
) -> (Result<Counted, OutOfMemory>, Result<Counted, OutOfMemory>)
    requires some_first { 0 < length first_books.old }
    requires some_later { 0 < length later_books.old }
    requires known { infos.now ≡ B.book.infos }
    requires first_numbered { Numbered first_span.now }
    requires later_numbered { Numbered later_span.now }
    ensures first { IfOk result.0 (λ c. c ≡ come_to B.book (span_works first_span.now)) }
    ensures later { IfOk result.1 (λ c. c ≡ come_to B.book (span_works later_span.now)) }
    ensures first_judged { sum_by B.calls first_books.new ≤ sum_by B.calls first_books.old
        + pages_judgings B.book (span_works first_span.now) }
    ensures later_judged { sum_by B.calls later_books.new ≤ sum_by B.calls later_books.old
        + pages_judgings B.book (span_works later_span.now) }
{
    let mut first = || -> Result<Counted, OutOfMemory>
        requires sync { IsSync R.row × IsSend B.row }
        requires some { 0 < length first_books.now }
        requires known { infos.now ≡ B.book.infos }
        requires numbered { Numbered first_span.now }
        ensures counted { IfOk result (λ c. c ≡ come_to B.book (span_works first_span.entry.now)) }
        ensures judged { sum_by B.calls first_books.exit.now ≤ sum_by B.calls first_books.entry.now
            + pages_judgings B.book (span_works first_span.entry.now) }
    { count_part(rt, alloc, infos, first_span, first_books) };
    let mut later = || -> Result<Counted, OutOfMemory>
        requires sync { IsSync R.row × IsSend B.row }
        requires some { 0 < length later_books.now }
        requires known { infos.now ≡ B.book.infos }
        requires numbered { Numbered later_span.now }
        ensures counted { IfOk result (λ c. c ≡ come_to B.book (span_works later_span.entry.now)) }
        ensures judged { sum_by B.calls later_books.exit.now ≤ sum_by B.calls later_books.entry.now
            + pages_judgings B.book (span_works later_span.entry.now) }
    { count_part(rt, alloc, infos, later_span, later_books) };
    join_mut(rt, &mut first, &mut later)
}

// The pages one after another, each made, counted and let go of.
fn count_in_turn<R: Threads + Sync, B: RuleBook + Send>(
    rt: &R,
    alloc: Global,
    infos: &[RuleInfo],
    span: &Span,
    books: &mut [B],
) -> Result<Counted, OutOfMemory>
    requires some { 0 < length books.old }
    requires known { infos.now ≡ B.book.infos }
    requires numbered { Numbered span.now }
    ensures counted { IfOk result (λ c. c ≡ come_to B.book (span_works span.now)) }
    ensures judged { sum_by B.calls books.new ≤ sum_by B.calls books.old
        + pages_judgings B.book (span_works span.now) }
{
    let Span {
        number,
        earlier,
        pages,
    } = *span;
    let mut counted = Counted::none();
    for more in 0..pages {
        let page = earlier + more + 1;
        counted = counted.and(count_page(rt, alloc, infos, number, page, books)?);
    }
    Ok(counted)
}

// A page that a number makes, made here, counted and let go of.
fn count_page<R: Threads + Sync, B: RuleBook + Send>(
    rt: &R,
    alloc: Global,
    infos: &[RuleInfo],
    number: u32,
    page: u32,
    books: &mut [B],
) -> Result<Counted, OutOfMemory>
    requires some { 0 < length books.old }
    requires known { infos.now ≡ B.book.infos }
    ensures counted { IfOk result (λ c. c ≡ come_to B.book (made_work number page ∷ [])) }
    ensures judged { sum_by B.calls books.new ≤ sum_by B.calls books.old
        + pages_judgings B.book (made_work number page ∷ []) }
{
    let work = made_work(alloc, number, page)?;
    count_works(rt, alloc, infos, from_ref(&work), books)
}

// What pages come to.
fn count_works<R: Threads + Sync, B: RuleBook + Send>(
    rt: &R,
    alloc: Global,
    infos: &[RuleInfo],
    works: &[PageWork],
    books: &mut [B],
) -> Result<Counted, OutOfMemory>
    requires some { 0 < length books.old }
    requires known { infos.now ≡ B.book.infos }
    ensures counted { IfOk result (λ c. c ≡ come_to B.book works.now) }
    ensures judged { sum_by B.calls books.new ≤ sum_by B.calls books.old
        + pages_judgings B.book works.now }
{
    let outcomes = audit_pages(rt, alloc, books, works)?;
    Ok(Counted {
        nodes: nodes_of(works),
        sums: sums_of(infos, outcomes.as_slice()),
    })
}

// A page that a number makes, to be audited without judgements.
#[tactic(auto, unfolding(crate::specs::Line::made_work))]
fn made_work(alloc: Global, number: u32, page: u32) -> Result<PageWork, OutOfMemory>
    ensures { IfOk result (λ work. work ≡ made_work number page) }
{
    let tree = made_tree(alloc, number, page)?;
    Ok(PageWork {
        tree,
        judgements: List::from_vec(Vec::new(alloc)),
    })
}
