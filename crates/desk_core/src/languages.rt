//! A site's list of languages, under which all its pages are audited anew.

ghost use Rattle.std.specs.Prelude.{◌≡◌, ◌<◌, length, map, sum_by, Some, IsTrue, IfOk};
ghost use Rattle.std.specs.List.{zip};
ghost use Rattle.snap_tree.specs.Langs.{AreLangs};
ghost use Rattle.keep_core.specs.Names.{is_name};
ghost use Rattle.keep_core.specs.declared.change.Change.{Change};
ghost use Rattle.keep_core.specs.declared.change.Change.TheVariants as change;
ghost use Rattle.desk_core.specs.declared.command.Command.TheVariants.{PutLanguages};
ghost use Rattle.desk_core.specs.declared.reply.Reply.TheVariants as reply;
ghost use Rattle.desk_core.specs.Costs.{Costs};
ghost use Rattle.desk_core.specs.Relisting.{relisting, outcomes_named, Relists, RelistCosts};
ghost use Rattle.desk_core.specs.Serving.{Decides};
ghost use Rattle.desk_core.specs.Steps.{asked_by};
ghost use Rattle.desk_core.specs.Summaries.{told};
ghost use Rattle.desk_core.specs.Told.{told_of};

use crate::decided::Decided;
use crate::enter::enter;
use crate::limits::MOST_BATCH;
use crate::refusal::{Needed, Refusal};
use crate::reply::Reply;
use crate::summaries::told;
use judge_core::Outcomes;
use keep_core::{Change, Keeper, KeptPage, PageHead, PageOutcomes};
use kept_pages::whole_pages;
use reaudit::{ReWork, reaudit_pages};
use rule_core::RuleBook;
use snap_tree::{List, OutOfMemory, Text};
use std::alloc::Global;
use std::thread::Threads;

/// Puts a list of languages in the place of the site's. The outcomes of all its pages are found anew from the kept
/// ones, by all books side by side: only what looks at the list is judged.
pub fn put_languages<R: Threads + Sync, K: Keeper, B: RuleBook + Send>(
    rt: &R,
    alloc: Global,
    books: &mut [B],
    keeper: &mut K,
    caller: &Text,
    site: Text,
    languages: List<Text>,
) -> Result<Decided, Refusal>
    requires some { 0 < length books.old }
    requires site { IsTrue (is_name site) }
    requires languages { AreLangs languages }
    ensures decides { Decides B.book (asked_by caller.now (PutLanguages site languages))
        (told_of K.Keeper keeper.old) (told_of K.Keeper keeper.new) result }
    ensures costs { Costs B.book (PutLanguages site languages) (K.tables keeper.old) (K.tables keeper.new)
        (sum_by B.calls books.old) (sum_by B.calls books.new) }
{
    let kept = enter(alloc, keeper, Needed::Owner, caller, &site)?;
    let heads = keeper.list(alloc, &site)?;
    let outcomes = relist(
        rt,
        alloc,
        books,
        keeper,
        &site,
        &kept.languages,
        &languages,
        heads.as_slice(),
    )?;
    Ok(relisted(site, languages, List::from_vec(outcomes)))
}

// The list with the outcomes of all pages under it.
fn relisted(site: Text, languages: List<Text>, pages: List<PageOutcomes>) -> Decided
    ensures { result ≡ record {
      change = Some (change.PutLanguages site languages pages);
      reply = reply.Languages (told (length languages)) (told (length pages));
    } }
{
    let reply = Reply::Languages {
        languages: told(languages.len()),
        pages: told(pages.len()),
    };
    Decided {
        change: Some(Change::PutLanguages {
            site,
            languages,
            pages,
        }),
        reply,
    }
}

// The outcomes of the pages of some heads under the new list, so many pages at once, each by those that are kept.
fn relist<R: Threads + Sync, K: Keeper, B: RuleBook + Send>(
    rt: &R,
    alloc: Global,
    books: &mut [B],
    keeper: &mut K,
    site: &Text,
    languages: &List<Text>,
    new: &List<Text>,
    heads: &[PageHead],
) -> Result<Vec<PageOutcomes>, Refusal>
    requires some { 0 < length books.old }
    requires languages { AreLangs languages.now }
    requires new { AreLangs new.now }
    ensures relists { Relists B.book site.now languages.now new.now heads.now
        (told_of K.Keeper keeper.old) (told_of K.Keeper keeper.new) result }
    ensures costs { RelistCosts B.book site.now languages.now new.now heads.now (K.tables keeper.new)
        (sum_by B.calls books.old) (sum_by B.calls books.new) }
{
    if heads.len() <= MOST_BATCH {
        return relist_some(rt, alloc, books, keeper, site, languages, new, heads);
    }
    let (some, later) = heads.split_at(MOST_BATCH);
    let mut outcomes = relist_some(rt, alloc, books, keeper, site, languages, new, some)?;
    let mut others = relist(rt, alloc, books, keeper, site, languages, new, later)?;
    outcomes.append(&mut others)?;
    Ok(outcomes)
}

fn relist_some<R: Threads + Sync, K: Keeper, B: RuleBook + Send>(
    rt: &R,
    alloc: Global,
    books: &mut [B],
    keeper: &mut K,
    site: &Text,
    languages: &List<Text>,
    new: &List<Text>,
    heads: &[PageHead],
) -> Result<Vec<PageOutcomes>, Refusal>
    requires some { 0 < length books.old }
    requires languages { AreLangs languages.now }
    requires new { AreLangs new.now }
    ensures relists { Relists B.book site.now languages.now new.now heads.now
        (told_of K.Keeper keeper.old) (told_of K.Keeper keeper.new) result }
    ensures costs { RelistCosts B.book site.now languages.now new.now heads.now (K.tables keeper.new)
        (sum_by B.calls books.old) (sum_by B.calls books.new) }
{
    let pages = whole_pages(alloc, keeper, site, languages, heads)?;
    let works = works_of(alloc, new, pages)?;
    let outcomes = reaudit_pages(rt, alloc, books, works.as_slice())?;
    Ok(name_all(alloc, heads, outcomes)?)
}

// Each page as it is, and with the new list.
fn works_of(
    alloc: Global,
    languages: &List<Text>,
    pages: List<KeptPage>,
) -> Result<Vec<ReWork>, OutOfMemory>
    requires { AreLangs languages.now }
    ensures { IfOk result (λ works. works.items ≡ map (relisting languages.now) pages) }
{
    let mut works = Vec::with_capacity(alloc, pages.len())?;
    for page in pages.into_vec() {
        works.push(relisting(alloc, languages, page)?)?;
    }
    Ok(works)
}

fn relisting(alloc: Global, languages: &List<Text>, page: KeptPage) -> Result<ReWork, OutOfMemory>
    requires { AreLangs languages.now }
    ensures { IfOk result (λ work. work ≡ relisting languages.now page) }
{
    let KeptPage {
        page,
        judgements,
        outcomes,
    } = page;
    let old = page.tree;
    let new = old.with_langs(alloc, languages)?;
    Ok(ReWork {
        old,
        rows: outcomes,
        new,
        judgements,
    })
}

/// The outcomes of pages by the names of their heads.
pub fn name_all(
    alloc: Global,
    heads: &[PageHead],
    outcomes: Vec<Outcomes>,
) -> Result<Vec<PageOutcomes>, OutOfMemory>
    ensures { IfOk result (λ all. all.items ≡ map outcomes_named (zip heads.now outcomes.items)) }
{
    let mut all = Vec::with_capacity(alloc, outcomes.len())?;
    for (head, outcomes) in heads.iter().zip(outcomes.into_iter()) {
        let page = head.page.copy(alloc)?;
        all.push(PageOutcomes { page, outcomes })?;
    }
    Ok(all)
}
