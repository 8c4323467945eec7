ghost use Rattle.snap_tree.specs.Langs.{AreLangs};
ghost use Rattle.desk_core.specs.Serving.{Finds, FindsKept, FindsPage, FindsShown, FindsWhole, Looks, Surveys};
ghost use Rattle.desk_core.specs.Told.{told_of};

use crate::enter::enter;
use crate::page_state::PageState;
use crate::placed::current_in;
use crate::refusal::{Needed, Refusal};
use judge_core::{Judgement, Outcomes};
use keep_core::{Keeper, KeptPage, Page, Site, listed};
use snap_tree::{List, Text};
use std::alloc::Global;

/// What is to be known before a page is put: the row of the site, the revision of the page that is there with
/// its judgements, and how many pages the site has. The page's tree isn't looked at.
#[derive(Drop)]
pub struct Survey {
    pub site: Site,
    /// The current revision of the page of its name; None for a new page.
    pub current: Option<u64>,
    pub judgements: List<Judgement>,
    pub pages: usize,
}

/// A page with its judgements, and with the languages of its site; None where it isn't kept.
pub fn look<K: Keeper>(
    alloc: Global,
    keeper: &mut K,
    languages: &List<Text>,
    site: &Text,
    page: &Text,
) -> Result<Option<PageState>, Refusal>
    requires { AreLangs languages.now }
    ensures { Looks languages.now site.now page.now (told_of K.Keeper keeper.old) (told_of K.Keeper keeper.new) result }
{
    match keeper.load(alloc, site, page)? {
        Some(kept) => {
            let judgements = keeper.judgements(alloc, site, page)?;
            let page = listed(alloc, kept, languages)?;
            Ok(Some(PageState { page, judgements }))
        }
        None => Ok(None),
    }
}

/// A page of a site in which the caller has this leave, with the site's row.
pub fn find<K: Keeper>(
    alloc: Global,
    keeper: &mut K,
    needed: Needed,
    caller: &Text,
    site: &Text,
    page: &Text,
) -> Result<(Site, PageState), Refusal>
    ensures { Finds needed caller.now site.now page.now (told_of K.Keeper keeper.old) (told_of K.Keeper keeper.new) result }
{
    let kept = enter(alloc, keeper, needed, caller, site)?;
    match look(alloc, keeper, &kept.languages, site, page)? {
        Some(found) => Ok((kept, found)),
        None => Err(Refusal::NoPage),
    }
}

/// The same page alone: its judgements aren't looked at.
pub fn find_page<K: Keeper>(
    alloc: Global,
    keeper: &mut K,
    needed: Needed,
    caller: &Text,
    site: &Text,
    page: &Text,
) -> Result<Page, Refusal>
    ensures { FindsPage needed caller.now site.now page.now (told_of K.Keeper keeper.old) (told_of K.Keeper keeper.new) result }
{
    let entered = enter(alloc, keeper, needed, caller, site)?;
    match keeper.load(alloc, site, page)? {
        Some(found) => {
            let page = listed(alloc, found, &entered.languages)?;
            Ok(page)
        }
        None => Err(Refusal::NoPage),
    }
}

/// The same page with its outcomes, without its judgements.
pub fn find_shown<K: Keeper>(
    alloc: Global,
    keeper: &mut K,
    needed: Needed,
    caller: &Text,
    site: &Text,
    page: &Text,
) -> Result<(Page, Outcomes), Refusal>
    ensures { FindsShown needed caller.now site.now page.now (told_of K.Keeper keeper.old) (told_of K.Keeper keeper.new) result }
{
    let found = find_page(alloc, keeper, needed, caller, site, page)?;
    let outcomes = keeper.outcomes(alloc, site, page)?;
    Ok((found, outcomes))
}

/// The page with its judgements and its outcomes, and the site's row.
pub fn find_whole<K: Keeper>(
    alloc: Global,
    keeper: &mut K,
    needed: Needed,
    caller: &Text,
    site: &Text,
    page: &Text,
) -> Result<(Site, KeptPage), Refusal>
    ensures { FindsWhole needed caller.now site.now page.now (told_of K.Keeper keeper.old) (told_of K.Keeper keeper.new) result }
{
    let found = find(alloc, keeper, needed, caller, site, page)?;
    let outcomes = keeper.outcomes(alloc, site, page)?;
    let kept = KeptPage {
        page: found.1.page,
        judgements: found.1.judgements,
        outcomes,
    };
    Ok((found.0, kept))
}

/// The page with its judgements and its outcomes.
pub fn find_kept<K: Keeper>(
    alloc: Global,
    keeper: &mut K,
    needed: Needed,
    caller: &Text,
    site: &Text,
    page: &Text,
) -> Result<KeptPage, Refusal>
    ensures { FindsKept needed caller.now site.now page.now (told_of K.Keeper keeper.old) (told_of K.Keeper keeper.new) result }
{
    let found = find_whole(alloc, keeper, needed, caller, site, page)?;
    Ok(found.1)
}

/// A site in which the caller may put pages, before one of this name is put.
pub fn survey_site<K: Keeper>(
    alloc: Global,
    keeper: &mut K,
    caller: &Text,
    site: &Text,
    page: &Text,
) -> Result<Survey, Refusal>
    ensures { Surveys caller.now site.now page.now (told_of K.Keeper keeper.old) (told_of K.Keeper keeper.new) result }
{
    let entered = enter(alloc, keeper, Needed::Editor, caller, site)?;
    let heads = keeper.list(alloc, site)?;
    let current = current_in(heads.as_slice(), page);
    let judgements = keeper.judgements(alloc, site, page)?;
    Ok(Survey {
        site: entered,
        current,
        judgements,
        pages: heads.len(),
    })
}
