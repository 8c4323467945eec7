ghost use Rattle.std.specs.Prelude.{◌≡◌, ◌++◌, IfOk, OnOk, OnErr, map};
ghost use Rattle.judge_core.specs.declared.judgement.Judgement.{Judgement};
ghost use Rattle.named_rows.specs.ByName.{with_row, IsInOrder};
ghost use Rattle.keep_core.specs.Tables.{page_name};
ghost use Rattle.keep_core.specs.Changes.{put_site, put_over, with_pages, without_page, with_judgements, having, with_outcomes, refreshed, with_languages, changed, changed_sites, changed_edition};
ghost use Rattle.keep_core.specs.Fits.{FitSites, FitTables};

use crate::change::Change;
use crate::lookups::judgements_in;
use crate::page::{PageOutcomes, PagePut};
use crate::site::Site;
use crate::tables::{KeptPage, KeptSite, Tables};
use judge_core::{Judgement, Outcomes};
use named_rows::{Place, Rows};
use snap_tree::{Duplicate, List, OutOfMemory, Text};
use std::alloc::Global;
use std::mem::replace;

/// Makes a change of what is kept. It takes its memory first: after a want of memory nothing is changed.
pub fn make(alloc: Global, tables: &mut Tables, change: &Change) -> Result<(), OutOfMemory>
    requires { FitTables tables.old }
    ensures made { OnOk result (tables.new ≡ changed change.now tables.old) }
    ensures kept { OnErr result (tables.new ≡ tables.old) }
{
    change_sites(alloc, &mut tables.sites, change)?;
    set_edition(&mut tables.edition, change);
    Ok(())
}

fn set_edition(edition: &mut u64, change: &Change)
    ensures { edition.new ≡ changed_edition change.now edition.old }
{
    match change {
        Change::PutSite { .. }
        | Change::PutPages { .. }
        | Change::DropPage { .. }
        | Change::AddJudgements { .. }
        | Change::PutLanguages { .. }
        | Change::Refresh { .. } => {}
        Change::SetEdition { number } => *edition = *number,
    }
}

fn change_sites(
    alloc: Global,
    sites: &mut Rows<KeptSite>,
    change: &Change,
) -> Result<(), OutOfMemory>
    requires { FitSites sites.old }
    ensures made { OnOk result (sites.new ≡ changed_sites change.now sites.old) }
    ensures kept { OnErr result (sites.new ≡ sites.old) }
{
    match change {
        Change::PutSite { site } => put_site(alloc, sites, site),
        Change::PutPages {
            site,
            counter,
            pages,
        } => put_pages(alloc, sites, site, *counter, pages),
        Change::DropPage { site, page } => {
            drop_page(sites, site, page);
            Ok(())
        }
        Change::AddJudgements {
            site,
            page,
            judgements,
            outcomes,
        } => add_judgements(alloc, sites, site, page, judgements, outcomes),
        Change::PutLanguages {
            site,
            languages,
            pages,
        } => put_languages(alloc, sites, site, languages, pages),
        Change::Refresh { site, pages } => refresh(alloc, sites, site, pages),
        Change::SetEdition { .. } => Ok(()),
    }
}

fn put_site(alloc: Global, sites: &mut Rows<KeptSite>, site: &Site) -> Result<(), OutOfMemory>
    requires { FitSites sites.old }
    ensures made { OnOk result (sites.new ≡ put_site site.now sites.old) }
    ensures kept { OnErr result (sites.new ≡ sites.old) }
{
    let copy = site.copy(alloc)?;
    match sites.place(&site.name) {
        Place::Found(i) => {
            sites.at_mut(i).site = copy;
            Ok(())
        }
        Place::Vacant(_) => sites.put(KeptSite {
            site: copy,
            pages: Rows::new(alloc),
        }),
    }
}

fn put_pages(
    alloc: Global,
    sites: &mut Rows<KeptSite>,
    site: &Text,
    counter: u64,
    puts: &List<PagePut>,
) -> Result<(), OutOfMemory>
    requires { FitSites sites.old }
    ensures made { OnOk result (sites.new ≡ changed_sites (Change.PutPages site.now counter puts.now) sites.old) }
    ensures kept { OnErr result (sites.new ≡ sites.old) }
{
    let Place::Found(i) = sites.place(site) else {
        return Ok(());
    };
    let kept = sites.at_mut(i);
    put_in_site(alloc, kept, counter, puts)
}

fn put_in_site(
    alloc: Global,
    kept: &mut KeptSite,
    counter: u64,
    puts: &List<PagePut>,
) -> Result<(), OutOfMemory>
    requires { IsInOrder page_name kept.old.pages }
    ensures made { OnOk result (kept.new ≡ with_pages counter puts.now kept.old) }
    ensures kept { OnErr result (kept.new ≡ kept.old) }
{
    let rows = rows_over(alloc, &kept.pages, puts.as_slice())?;
    kept.pages.put_all(rows)?;
    kept.site.counter = counter;
    Ok(())
}

// The rows of pages that are put, with the judgements that are kept of them.
fn rows_over(
    alloc: Global,
    kept: &Rows<KeptPage>,
    puts: &[PagePut],
) -> Result<Vec<KeptPage>, OutOfMemory>
    requires { IsInOrder page_name kept.now }
    ensures { IfOk result (λ rows. rows.items ≡ map (put_over kept.now) puts.now) }
{
    let mut rows = Vec::with_capacity(alloc, puts.len())?;
    for put in puts {
        rows.push(row_over(alloc, kept, put)?)?;
    }
    Ok(rows)
}

fn row_over(alloc: Global, kept: &Rows<KeptPage>, put: &PagePut) -> Result<KeptPage, OutOfMemory>
    requires { IsInOrder page_name kept.now }
    ensures { IfOk result (λ row. row ≡ put_over kept.now put.now) }
{
    let judgements = judgements_in(alloc, kept.get(&put.page.head.page))?;
    let page = put.page.copy(alloc)?;
    let outcomes = put.outcomes.copy(alloc)?;
    Ok(KeptPage {
        page,
        judgements,
        outcomes,
    })
}

fn drop_page(sites: &mut Rows<KeptSite>, site: &Text, page: &Text)
    requires { FitSites sites.old }
    ensures { sites.new ≡ changed_sites (Change.DropPage site.now page.now) sites.old }
{
    if let Place::Found(i) = sites.place(site) {
        sites.at_mut(i).pages.take(page);
    }
}

fn add_judgements(
    alloc: Global,
    sites: &mut Rows<KeptSite>,
    site: &Text,
    page: &Text,
    js: &List<Judgement>,
    outcomes: &Outcomes,
) -> Result<(), OutOfMemory>
    requires { FitSites sites.old }
    ensures made { OnOk result (sites.new ≡ changed_sites (Change.AddJudgements site.now page.now js.now outcomes.now) sites.old) }
    ensures kept { OnErr result (sites.new ≡ sites.old) }
{
    let Place::Found(i) = sites.place(site) else {
        return Ok(());
    };
    let kept = sites.at_mut(i);
    judge_in_site(alloc, &mut kept.pages, page, js, outcomes)
}

fn judge_in_site(
    alloc: Global,
    pages: &mut Rows<KeptPage>,
    page: &Text,
    js: &List<Judgement>,
    outcomes: &Outcomes,
) -> Result<(), OutOfMemory>
    requires { IsInOrder page_name pages.old }
    ensures made { OnOk result (pages.new ≡ with_row page_name page.now (with_judgements js.now outcomes.now) pages.old) }
    ensures kept { OnErr result (pages.new ≡ pages.old) }
{
    let Place::Found(i) = pages.place(page) else {
        return Ok(());
    };
    let kept = pages.at_mut(i);
    judge_page(alloc, kept, js, outcomes)
}

fn judge_page(
    alloc: Global,
    kept: &mut KeptPage,
    js: &List<Judgement>,
    outcomes: &Outcomes,
) -> Result<(), OutOfMemory>
    ensures made { OnOk result (kept.new ≡ with_judgements js.now outcomes.now kept.old) }
    ensures kept { OnErr result (kept.new ≡ kept.old) }
{
    let outcomes = outcomes.copy(alloc)?;
    append(alloc, &mut kept.judgements, js.copy(alloc)?)?;
    kept.outcomes = outcomes;
    Ok(())
}

// Puts judgements at the end of a list.
fn append(
    alloc: Global,
    list: &mut List<Judgement>,
    more: List<Judgement>,
) -> Result<(), OutOfMemory>
    ensures made { OnOk result (list.new ≡ list.old ++ more) }
    ensures kept { OnErr result (list.new ≡ list.old) }
{
    let mut items = replace(list, List::from_vec(Vec::new(alloc))).into_vec();
    let mut more = more.into_vec();
    let appended = items.append(&mut more);
    *list = List::from_vec(items);
    Ok(appended?)
}

fn put_languages(
    alloc: Global,
    sites: &mut Rows<KeptSite>,
    site: &Text,
    languages: &List<Text>,
    outcomes: &List<PageOutcomes>,
) -> Result<(), OutOfMemory>
    requires { FitSites sites.old }
    ensures made { OnOk result (sites.new ≡ changed_sites (Change.PutLanguages site.now languages.now outcomes.now) sites.old) }
    ensures kept { OnErr result (sites.new ≡ sites.old) }
{
    let Place::Found(i) = sites.place(site) else {
        return Ok(());
    };
    let kept = sites.at_mut(i);
    relist_site(alloc, kept, languages, outcomes)
}

fn relist_site(
    alloc: Global,
    kept: &mut KeptSite,
    languages: &List<Text>,
    outcomes: &List<PageOutcomes>,
) -> Result<(), OutOfMemory>
    requires { IsInOrder page_name kept.old.pages }
    ensures made { OnOk result (kept.new ≡ with_languages languages.now outcomes.now kept.old) }
    ensures kept { OnErr result (kept.new ≡ kept.old) }
{
    let languages = languages.copy(alloc)?;
    refresh_pages(&mut kept.pages, outcomes.copy(alloc)?);
    kept.site.languages = languages;
    Ok(())
}

fn refresh(
    alloc: Global,
    sites: &mut Rows<KeptSite>,
    site: &Text,
    outcomes: &List<PageOutcomes>,
) -> Result<(), OutOfMemory>
    requires { FitSites sites.old }
    ensures made { OnOk result (sites.new ≡ changed_sites (Change.Refresh site.now outcomes.now) sites.old) }
    ensures kept { OnErr result (sites.new ≡ sites.old) }
{
    let Place::Found(i) = sites.place(site) else {
        return Ok(());
    };
    let kept = sites.at_mut(i);
    refresh_site(alloc, kept, outcomes)
}

fn refresh_site(
    alloc: Global,
    kept: &mut KeptSite,
    outcomes: &List<PageOutcomes>,
) -> Result<(), OutOfMemory>
    requires { IsInOrder page_name kept.old.pages }
    ensures made { OnOk result (kept.new ≡ refreshed outcomes.now kept.old) }
    ensures kept { OnErr result (kept.new ≡ kept.old) }
{
    refresh_pages(&mut kept.pages, outcomes.copy(alloc)?);
    Ok(())
}

// Gives pages the outcomes that are theirs now.
fn refresh_pages(pages: &mut Rows<KeptPage>, outcomes: List<PageOutcomes>)
    requires { IsInOrder page_name pages.old }
    ensures { pages.new ≡ with_outcomes outcomes pages.old }
{
    for one in outcomes.into_vec() {
        refresh_page(pages, one);
    }
}

fn refresh_page(pages: &mut Rows<KeptPage>, one: PageOutcomes)
    requires { IsInOrder page_name pages.old }
    ensures refreshed { pages.new ≡ with_row page_name one.page (having one.outcomes) pages.old }
    ensures in_order { IsInOrder page_name pages.new }
{
    if let Place::Found(i) = pages.place(&one.page) {
        pages.at_mut(i).outcomes = one.outcomes;
    }
}
