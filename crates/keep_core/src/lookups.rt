ghost use Rattle.std.specs.Prelude.{◌≡◌, ◌++◌, IfOk, OnOk, map, take};
ghost use Rattle.std.specs.List.{filter_map};
ghost use Rattle.std.specs.Option.{option_copied, option_to_list};
ghost use Rattle.named_rows.specs.ByName.{at, IsInOrder};
ghost use Rattle.keep_core.specs.Members.{membership};
ghost use Rattle.keep_core.specs.Tables.{site_name, page_name, judgements_in, outcomes_in, sites_of, site_of, memberships_of, page_of, heads_of, judgements_of, outcomes_of, kept_page};
ghost use Rattle.keep_core.specs.Fits.{FitTables};

use crate::member::{Membership, role_of};
use crate::page::{Page, PageHead};
use crate::site::Site;
use crate::tables::{KeptPage, KeptSite, Tables};
use judge_core::{Judgement, Outcomes};
use snap_tree::{Duplicate, List, OutOfMemory, Text};
use std::alloc::Global;

/// The names of the sites.
pub fn site_names(alloc: Global, tables: &Tables) -> Result<List<Text>, OutOfMemory>
    ensures { IfOk result (λ names. names ≡ sites_of tables.now) }
{
    names_among(alloc, tables.sites.as_slice())
}

fn names_among(alloc: Global, sites: &[KeptSite]) -> Result<List<Text>, OutOfMemory>
    ensures { IfOk result (λ names. names ≡ map site_name sites.now) }
{
    let mut names = Vec::with_capacity(alloc, sites.len())?;
    for kept in sites {
        names.push(kept.site.name.copy(alloc)?)?;
    }
    Ok(List::from_vec(names))
}

/// The row of a site.
pub fn site_row(alloc: Global, tables: &Tables, site: &Text) -> Result<Option<Site>, OutOfMemory>
    requires { FitTables tables.now }
    ensures { IfOk result (λ found. found ≡ site_of site.now tables.now) }
{
    match tables.sites.get(site) {
        Some(kept) => Ok(Some(kept.site.copy(alloc)?)),
        None => Ok(None),
    }
}

// A user's membership of a site; None for a stranger.
fn membership(alloc: Global, user: &Text, site: &Site) -> Result<Option<Membership>, OutOfMemory>
    ensures { IfOk result (λ found. found ≡ membership user.now site.now) }
{
    match role_of(user, site.members.as_slice()) {
        Some(role) => Ok(Some(Membership {
            site: site.name.copy(alloc)?,
            role,
        })),
        None => Ok(None),
    }
}

fn push(
    memberships: &mut Vec<Membership>,
    membership: Option<Membership>,
) -> Result<(), OutOfMemory>
    ensures { OnOk result (memberships.new.items ≡ memberships.old.items ++ option_to_list membership) }
{
    if let Some(membership) = membership {
        memberships.push(membership)?;
    }
    Ok(())
}

fn memberships_among(
    alloc: Global,
    user: &Text,
    sites: &[KeptSite],
) -> Result<List<Membership>, OutOfMemory>
    ensures { IfOk result (λ ms. ms ≡ filter_map (λ s. membership user.now s.site) sites.now) }
{
    let mut memberships = Vec::new(alloc);
    for kept in sites {
        let found = membership(alloc, user, &kept.site)?;
        push(&mut memberships, found)?;
    }
    Ok(List::from_vec(memberships))
}

/// The sites of which a user is a member.
pub fn memberships(
    alloc: Global,
    tables: &Tables,
    user: &Text,
) -> Result<List<Membership>, OutOfMemory>
    ensures { IfOk result (λ ms. ms ≡ memberships_of user.now tables.now) }
{
    memberships_among(alloc, user, tables.sites.as_slice())
}

// A page with what is kept of it.
fn kept_page<'a>(tables: &'a Tables, site: &Text, page: &Text) -> Option<&'a KeptPage>
    requires { FitTables tables.now }
    ensures { option_copied result ≡ kept_page site.now page.now tables.now }
{
    match tables.sites.get(site) {
        Some(kept) => kept.pages.get(page),
        None => None,
    }
}

/// A page.
pub fn page_row(
    alloc: Global,
    tables: &Tables,
    site: &Text,
    page: &Text,
) -> Result<Option<Page>, OutOfMemory>
    requires { FitTables tables.now }
    ensures { IfOk result (λ found. found ≡ page_of site.now page.now tables.now) }
{
    match kept_page(tables, site, page) {
        Some(kept) => Ok(Some(kept.page.copy(alloc)?)),
        None => Ok(None),
    }
}

/// The heads of a site's pages.
pub fn heads(alloc: Global, tables: &Tables, site: &Text) -> Result<List<PageHead>, OutOfMemory>
    requires { FitTables tables.now }
    ensures { IfOk result (λ heads. heads ≡ heads_of site.now tables.now) }
{
    match tables.sites.get(site) {
        Some(kept) => heads_among(alloc, kept.pages.as_slice()),
        None => Ok(List::from_vec(Vec::new(alloc))),
    }
}

fn heads_among(alloc: Global, pages: &[KeptPage]) -> Result<List<PageHead>, OutOfMemory>
    ensures { IfOk result (λ heads. heads ≡ map (λ p. p.page.head) pages.now) }
{
    let mut heads = Vec::with_capacity(alloc, pages.len())?;
    for kept in pages {
        heads.push(kept.page.head.copy(alloc)?)?;
    }
    Ok(List::from_vec(heads))
}

/// The judgements of a page.
pub fn judgements(
    alloc: Global,
    tables: &Tables,
    site: &Text,
    page: &Text,
) -> Result<List<Judgement>, OutOfMemory>
    requires { FitTables tables.now }
    ensures { IfOk result (λ js. js ≡ judgements_of site.now page.now tables.now) }
{
    judgements_in(alloc, kept_page(tables, site, page))
}

/// The judgements that are kept of a page; none of a strange one.
pub fn judgements_in(alloc: Global, kept: Option<&KeptPage>) -> Result<List<Judgement>, OutOfMemory>
    ensures { IfOk result (λ js. js ≡ judgements_in (option_copied kept.entry)) }
{
    match kept {
        Some(kept) => kept.judgements.copy(alloc),
        None => Ok(List::from_vec(Vec::new(alloc))),
    }
}

/// The outcomes of a page.
pub fn outcomes(
    alloc: Global,
    tables: &Tables,
    site: &Text,
    page: &Text,
) -> Result<Outcomes, OutOfMemory>
    requires { FitTables tables.now }
    ensures { IfOk result (λ outcomes. outcomes ≡ outcomes_of site.now page.now tables.now) }
{
    match kept_page(tables, site, page) {
        Some(kept) => kept.outcomes.copy(alloc),
        None => Ok(Outcomes {
            rows: List::from_vec(Vec::new(alloc)),
        }),
    }
}
