ghost use Rattle.std.specs.Prelude.{◌≡◌, ◌<◌, length};
ghost use Rattle.rule_core.specs.Reach.{affected};
ghost use Rattle.judge_core.specs.Outcomes.{judgings};
ghost use Rattle.desk_core.specs.Costs.{FirstJudges, FirstJudgesLess};
ghost use Rattle.desk_core.specs.Fitting.{AreNames};
ghost use Rattle.desk_core.specs.Pages.{renewed, storing};
ghost use Rattle.desk_core.specs.Serving.{Agrees, Edits, FitsListed, IsTrueTo};

use crate::decided::Decided;
use crate::refusal::Refusal;
use crate::reply::Reply;
use crate::sent::SentPage;
use crate::store::{page_edited, page_put, stored};
use judge_core::Judgement;
use keep_core::{Change, KeptPage, MOST_REVISION, PagePut};
use rule_core::RuleBook;
use snap_tree::{List, Text, Tree};
use std::alloc::Global;

// A page that is put, with what is said of it.
fn storing<B: RuleBook>(
    alloc: Global,
    book: &B,
    site: Text,
    put: PagePut,
) -> Result<Decided, Refusal>
    ensures { Agrees ⊥ result (storing B.book site put.page.head.rev put) }
{
    let stored = stored(alloc, book, &put)?;
    let counter = put.page.head.rev;
    let mut pages = Vec::with_capacity(alloc, 1)?;
    pages.push(put)?;
    Ok(Decided {
        change: Some(Change::PutPages {
            site,
            counter,
            pages: List::from_vec(pages),
        }),
        reply: Reply::Stored(stored),
    })
}

/// A page of this tree under judgements, by the next revision, as it is put where a page is put.
pub fn renewed<B: RuleBook>(
    alloc: Global,
    books: &mut [B],
    caller: &Text,
    sent: SentPage,
    counter: u64,
    js: &[Judgement],
    tree: Tree,
) -> Result<Decided, Refusal>
    requires some { 0 < length books.old }
    requires room { counter < MOST_REVISION }
    ensures decided { Agrees ⊥ result (renewed B.book sent.site caller.now sent.page counter js.now tree) }
    ensures costs { FirstJudges B.calls (judgings B.book tree) books.old books.new }
{
    let put = page_put(alloc, books, sent.page, counter + 1, caller, tree, js)?;
    storing(alloc, &books[0], sent.site, put)
}

/// A page of this tree by the next revision, as it is put where a page is edited: what is found on it comes of what is
/// kept.
pub fn edited<B: RuleBook>(
    alloc: Global,
    books: &mut [B],
    caller: &Text,
    sent: SentPage,
    counter: u64,
    kept: &KeptPage,
    tree: Tree,
) -> Result<Decided, Refusal>
    requires some { 0 < length books.old }
    requires room { counter < MOST_REVISION }
    requires address { kept.now.page.tree.address ≡ tree.address }
    requires names { AreNames sent.site sent.page }
    requires fits { FitsListed kept.now.page }
    ensures decided { IsTrueTo B.book kept.now → Agrees ⊥ result
        (renewed B.book sent.site caller.now sent.page counter kept.now.judgements tree) }
    ensures edits { Edits sent.site sent.page result }
    ensures costs { FirstJudgesLess B.calls (IsTrueTo B.book kept.now)
        (length (affected B.book kept.now.page.tree tree)) (judgings B.book tree) books.old books.new }
{
    let put = page_edited(alloc, books, sent.page, counter + 1, caller, kept, tree)?;
    storing(alloc, &books[0], sent.site, put)
}
