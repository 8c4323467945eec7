ghost use Rattle.std.specs.Prelude.{◌≡◌, ◌+◌, ◌<◌, ◌≤◌, length, sum_by, IfOk};
ghost use Rattle.std.specs.String.{string_bytes};
ghost use Rattle.audit.specs.Pages.{pages_judgings};
ghost use Rattle.reports.specs.Summary.{summary_line};
ghost use Rattle.made_audit.specs.Line.{made_line, made_works};

use crate::counted::Counted;
use crate::span::Span;
use crate::workers::count_pages;
use judge_core::infos_of;
use reports::summary_line;
use rule_core::RuleBook;
use snap_tree::{List, OutOfMemory};
use std::alloc::Global;
use std::thread::Threads;

/// Makes pages from a number, audits them with all books, and gives the line that says what they come to,
/// whatever the number of books: there is at least one. The sum of their counts of judgings rises by at most the
/// atomic rules times the nodes of all pages. Fails only for want of memory.
pub fn made_line<R: Threads + Sync, B: RuleBook + Send>(
    rt: &R,
    alloc: Global,
    books: &mut [B],
    number: u32,
    pages: u32,
) -> Result<List<u8>, OutOfMemory>
    requires { 0 < length books.old }
    ensures line { IfOk result (λ line. line ≡ made_line B.book number pages) }
    ensures counted { sum_by B.calls books.new ≤ sum_by B.calls books.old
        + pages_judgings B.book (made_works number pages) }
{
    let infos = infos_of(alloc, &books[0])?;
    let span = Span {
        number,
        earlier: 0,
        pages,
    };
    let counted = count_pages(rt, alloc, infos.as_slice(), &span, books)?;
    line_of(alloc, pages, counted)
}

// The line of so many pages that come to this.
fn line_of(alloc: Global, pages: u32, counted: Counted) -> Result<List<u8>, OutOfMemory>
    ensures { IfOk result (λ line. line ≡ summary_line pages counted.nodes counted.sums) }
{
    let line = summary_line(alloc, pages as usize, counted.nodes, counted.sums)?;
    Ok(List::from_vec(line.into_bytes()))
}
