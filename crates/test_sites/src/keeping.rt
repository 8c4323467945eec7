//! What a keeper answers of what it keeps.

ghost use Rattle.std.specs.Prelude.{◌≡◌, ◌∷◌, [], IfOk, IsTrue};
ghost use Rattle.snap_tree.specs.Langs.{AreLangs};
ghost use Rattle.keep_core.specs.Fits.{Fits, FitsPage};
ghost use Rattle.keep_core.specs.Names.{is_name};

use crate::asked::keeper_failing;
use crate::doubtful::Doubtful;
use crate::fits::{are_langs, named, site};
use crate::soundness::is_sound;
use fixture_pages::Node::Html;
use judge_core::{Judgement, OutRow, Outcomes};
use keep_core::{
    Batch, Change, Keeper, MOST_REVISION, MemoryKeeper, Page, PageHead, PageOutcomes, PagePut,
    SitePage, laws_of_changes,
};
use rule_core::Auto::{CantTell, Passed};
use rule_core::{Reason, RuleNo};
use snap_tree::{Duplicate, List, NodeId, OutOfMemory, Text};
use std::alloc::Global;
use std::process::Abort;
use std::test::Fail;
use web_address::is_web_address;

// Changes of the site s and its page p, and of the edition.
#[derive(Clone, Copy, Debug)]
enum Step {
    Site,
    // The page at this revision, with one row of outcomes.
    Page(u16),
    // A judgement, with no outcomes.
    Judgement,
    // So many languages of the site, with no outcomes of the page.
    Languages(usize),
    // So many rows of outcomes.
    Refresh(u32),
    Edition(u64),
    Drop,
}

// What a keeper answers of a site and a page: the counter, the page's revision, how many pages the site has,
// and how many judgements and rows of outcomes the page has.
type Seen = (Option<u64>, Option<u64>, usize, usize, usize);

// How many languages the site has, how many sites there are, and the edition.
type Beside = (usize, usize, u64);

// Changes one after another, and what is seen after each.
static STEPS: [(Step, Seen, Beside); 16] = [
    (Step::Refresh(2), (None, None, 0, 0, 0), (0, 0, 0)),
    (Step::Site, (Some(0), None, 0, 0, 0), (0, 1, 0)),
    (Step::Page(1), (Some(1), Some(1), 1, 0, 1), (0, 1, 0)),
    (Step::Judgement, (Some(1), Some(1), 1, 1, 0), (0, 1, 0)),
    (Step::Judgement, (Some(1), Some(1), 1, 2, 0), (0, 1, 0)),
    (Step::Refresh(2), (Some(1), Some(1), 1, 2, 2), (0, 1, 0)),
    (
        Step::Edition(3_003),
        (Some(1), Some(1), 1, 2, 2),
        (0, 1, 3_003),
    ),
    (
        Step::Languages(2),
        (Some(1), Some(1), 1, 2, 0),
        (2, 1, 3_003),
    ),
    (Step::Page(2), (Some(2), Some(2), 1, 2, 1), (2, 1, 3_003)),
    (
        Step::Languages(1),
        (Some(2), Some(2), 1, 2, 0),
        (1, 1, 3_003),
    ),
    (Step::Refresh(1), (Some(2), Some(2), 1, 2, 1), (1, 1, 3_003)),
    (Step::Site, (Some(0), Some(2), 1, 2, 1), (0, 1, 3_003)),
    (Step::Drop, (Some(0), None, 0, 0, 0), (0, 1, 3_003)),
    (Step::Refresh(2), (Some(0), None, 0, 0, 0), (0, 1, 3_003)),
    (Step::Languages(2), (Some(0), None, 0, 0, 0), (2, 1, 3_003)),
    (Step::Edition(0), (Some(0), None, 0, 0, 0), (2, 1, 0)),
];

// A list of one item.
fn one<T: Drop>(alloc: Global, item: T) -> Result<List<T>, OutOfMemory>
    ensures { IfOk result (λ items. items ≡ item ∷ []) }
{
    let mut items = Vec::new(alloc);
    items.push(item)?;
    Ok(List::from_vec(items))
}

fn page(rt: &impl Abort, alloc: Global, rev: u16) -> Result<Page, Fail>
    ensures { IfOk result FitsPage }
{
    let head = PageHead {
        page: named(alloc, "p")?,
        rev: u64::from(rev),
        hand: Text::from_str(alloc, "Ann")?,
    };
    let tree = fixture_pages::page(alloc, &[Html(0, "html", &[])])?;
    assert!(rt; is_web_address(alloc, tree.address().as_str())?);
    Ok(Page { head, tree })
}

fn row(alloc: Global, node: u32) -> Result<OutRow, OutOfMemory> {
    Ok(OutRow {
        rule: RuleNo(16),
        node: NodeId(node.saturating_add(1)),
        auto: CantTell,
        reason: Reason::JudgeHeading,
        evidence: Text::from_str(alloc, "Hours")?,
        last: CantTell,
        hand: Text::new(alloc),
    })
}

// So many rows of outcomes.
fn outcomes(alloc: Global, count: u32) -> Result<Outcomes, OutOfMemory> {
    let mut rows = Vec::new(alloc);
    for node in 0..count {
        rows.push(row(alloc, node)?)?;
    }
    let rows = List::from_vec(rows);
    Ok(Outcomes { rows })
}

fn page_put(rt: &impl Abort, alloc: Global, rev: u16) -> Result<PagePut, Fail>
    ensures { IfOk result (λ put. FitsPage put.page) }
{
    let page = page(rt, alloc, rev)?;
    let outcomes = outcomes(alloc, 1)?;
    Ok(PagePut { page, outcomes })
}

fn put_pages(rt: &impl Abort, alloc: Global, rev: u16) -> Result<Change, Fail>
    ensures { IfOk result Fits }
{
    let site = named(alloc, "s")?;
    let put = page_put(rt, alloc, rev)?;
    let pages = one(alloc, put)?;
    Ok(Change::PutPages {
        site,
        counter: u64::from(rev),
        pages,
    })
}

fn put_site(alloc: Global) -> Result<Change, Fail>
    ensures { IfOk result Fits }
{
    let site = site(alloc)?;
    Ok(Change::PutSite { site })
}

fn add_judgement(alloc: Global) -> Result<Change, Fail>
    ensures { IfOk result Fits }
{
    let site = named(alloc, "s")?;
    let page = named(alloc, "p")?;
    let judgement = Judgement {
        rule: RuleNo(16),
        node: NodeId(1),
        verdict: Passed,
        hand: Text::from_str(alloc, "bob")?,
        note: Text::new(alloc),
        evidence: Text::from_str(alloc, "Hours")?,
    };
    let outcomes = outcomes(alloc, 0)?;
    let judgements = one(alloc, judgement)?;
    Ok(Change::AddJudgements {
        site,
        page,
        judgements,
        outcomes,
    })
}

static LANGUAGES: [&str; 2] = ["gsw", "haw"];

// The first so many languages.
fn languages(alloc: Global, count: usize) -> Result<List<Text>, Fail>
    ensures { IfOk result AreLangs }
{
    let mut all = Vec::new(alloc);
    for language in LANGUAGES.iter().take(count) {
        all.push(Text::from_str(alloc, language)?)?;
    }
    let all = List::from_vec(all);
    if !are_langs(&all) {
        return Err(Fail::from("no languages"));
    }
    Ok(all)
}

// So many rows of outcomes of the page p.
fn page_outcomes(alloc: Global, count: u32) -> Result<PageOutcomes, Fail>
    ensures { IfOk result (λ found. IsTrue (is_name found.page)) }
{
    let page = named(alloc, "p")?;
    let outcomes = outcomes(alloc, count)?;
    Ok(PageOutcomes { page, outcomes })
}

fn put_languages(alloc: Global, count: usize) -> Result<Change, Fail>
    ensures { IfOk result Fits }
{
    let site = named(alloc, "s")?;
    let languages = languages(alloc, count)?;
    let outcomes = page_outcomes(alloc, 0)?;
    let pages = one(alloc, outcomes)?;
    Ok(Change::PutLanguages {
        site,
        languages,
        pages,
    })
}

fn refresh(alloc: Global, count: u32) -> Result<Change, Fail>
    ensures { IfOk result Fits }
{
    let site = named(alloc, "s")?;
    let outcomes = page_outcomes(alloc, count)?;
    let pages = one(alloc, outcomes)?;
    Ok(Change::Refresh { site, pages })
}

fn set_edition(number: u64) -> Result<Change, Fail>
    ensures { IfOk result Fits }
{
    if MOST_REVISION < number {
        return Err(Fail::from("no edition"));
    }
    Ok(Change::SetEdition { number })
}

fn drop_page(alloc: Global) -> Result<Change, Fail>
    ensures { IfOk result Fits }
{
    let site = named(alloc, "s")?;
    let page = named(alloc, "p")?;
    Ok(Change::DropPage { site, page })
}

fn change(rt: &impl Abort, alloc: Global, step: Step) -> Result<Change, Fail>
    ensures { IfOk result Fits }
{
    match step {
        Step::Site => put_site(alloc),
        Step::Page(rev) => put_pages(rt, alloc, rev),
        Step::Judgement => add_judgement(alloc),
        Step::Languages(count) => put_languages(alloc, count),
        Step::Refresh(count) => refresh(alloc, count),
        Step::Edition(number) => set_edition(number),
        Step::Drop => drop_page(alloc),
    }
}

// What a keeper answers of a site and a page.
fn look<K: Keeper>(alloc: Global, keeper: &mut K, site: &str, page: &str) -> Result<Seen, Fail> {
    let site = Text::from_str(alloc, site)?;
    let page = Text::from_str(alloc, page)?;
    let counter = keeper.site(alloc, &site)?.map(|site| site.counter);
    let rev = keeper.load(alloc, &site, &page)?.map(|page| page.head.rev);
    let pages = keeper.list(alloc, &site)?.len();
    let judgements = keeper.judgements(alloc, &site, &page)?.len();
    let rows = keeper.outcomes(alloc, &site, &page)?.rows.len();
    Ok((counter, rev, pages, judgements, rows))
}

// What it answers beside that.
fn look_beside<K: Keeper>(alloc: Global, keeper: &mut K, site: &str) -> Result<Beside, Fail> {
    let site = Text::from_str(alloc, site)?;
    let languages = keeper
        .site(alloc, &site)?
        .map_or(0, |site| site.languages.len());
    let sites = keeper.sites(alloc)?.len();
    Ok((languages, sites, keeper.edition(alloc)?))
}

fn make(rt: &impl Abort, alloc: Global, keeper: &mut MemoryKeeper, step: Step) -> Result<(), Fail> {
    let change = change(rt, alloc, step)?;
    keeper.apply(alloc, &Batch { change })?;
    Ok(())
}

#[test]
fn each_change_is_seen(rt: HostRuntime) -> Result<(), Fail> {
    let alloc = rt.alloc();
    let mut keeper = keeper_failing(alloc, &[])?;
    for (step, wanted, beside) in STEPS.as_slice() {
        make(&rt, alloc, &mut keeper, *step)?;
        let is_so = look(alloc, &mut keeper, "s", "p")? == *wanted;
        if !is_so || look_beside(alloc, &mut keeper, "s")? != *beside {
            return Err(Fail::from(*step));
        }
    }
    laws_of_changes();
    Ok(())
}

// The page's one row of outcomes is no book's.
#[test]
fn what_is_not_sound_is_found(rt: HostRuntime) -> Result<(), Fail> {
    let alloc = rt.alloc();
    let mut keeper = keeper_failing(alloc, &[])?;
    let site = Text::from_str(alloc, "s")?;
    make(&rt, alloc, &mut keeper, Step::Site)?;
    assert!(rt; is_sound(alloc, &mut keeper, &site)?);
    make(&rt, alloc, &mut keeper, Step::Page(1))?;
    assert!(rt; !is_sound(alloc, &mut keeper, &site)?);
    Ok(())
}

// Whether these are the same, of one row, an element html.
fn are_equal(copy: &PagePut, put: &PagePut) -> bool {
    let is_html = match copy.page.tree.rows() {
        [row] => row.is_html("html"),
        _ => false,
    };
    is_html
        && copy.page.head == put.page.head
        && *copy.page.tree.address() == *put.page.tree.address()
        && copy.outcomes == put.outcomes
}

// Whether what is shown of a page is equal to its copy.
fn is_shown_alike(alloc: Global, put: PagePut) -> Result<bool, Fail> {
    let address = put.page.tree.address().copy(alloc)?;
    let PagePut { page, outcomes } = put;
    let shown = SitePage {
        head: page.head,
        address,
        outcomes,
    };
    Ok(shown.copy(alloc)? == shown)
}

#[test]
fn copies_are_equal(rt: HostRuntime) -> Result<(), Fail> {
    let alloc = rt.alloc();
    let put = page_put(&rt, alloc, 1)?;
    let copy = put.copy(alloc)?;
    assert!(rt; are_equal(&copy, &put));
    assert!(rt; is_shown_alike(alloc, put)?);
    Ok(())
}

#[test]
fn a_keeper_may_cease_to_tell(rt: HostRuntime) -> Result<(), Fail> {
    let alloc = rt.alloc();
    let mut memory = keeper_failing(alloc, &[2])?;
    let change = put_site(alloc)?;
    memory.apply(alloc, &Batch { change })?;
    let mut keeper = Doubtful::over(memory);
    let site = Text::from_str(alloc, "s")?;
    assert!(rt; keeper.site(alloc, &site).is_err());
    assert_eq!(rt; look(alloc, &mut keeper, "s", "p")?, STEPS[1].1);
    Ok(())
}
