ghost use Rattle.std.specs.Prelude.{◌≡◌, IfOk, Some};
ghost use Rattle.matchit.specs.Params.{AllText};
ghost use Rattle.http_routes.specs.Table.{rows};
ghost use Rattle.http_routes.specs.Places.{place_of, with_parts};

use crate::names::{Names, names_of};
use matchit::{InsertError, ParamsIter, Router};
use segment_routes::path_of;
use std::alloc::Global;
use std::marker::Model;
use std::str::from_utf8;
use texts::OutOfMemory;

/// What a path names: each row of the table stands for one.
#[derive(Clone, Copy, Debug, PartialEq, Eq)]
pub(crate) enum Resource {
    Site,
    SiteReport,
    SiteEarl,
    SiteCsv,
    Import,
    Languages,
    Member,
    Page,
    PageReport,
    PageEarl,
    PageNames,
    Edits,
    Judgements,
    Outcomes,
    PageVerdicts,
    Members,
    Memberships,
}

/// The table of routes, which is made once: then paths are looked up in it, without memory of its own.
#[derive(Drop)]
pub struct Table {
    router: Router<Resource>,
}

impl Model for Table {
    ghost use Rattle.std.specs.Prelude.{◌≡◌};
    ghost use Rattle.http_routes.specs.Table.{rows};

    ghost Value = { Unit {0} };

    ghost view = { λ table. tt };

    ghost invariant = { λ table. table.router ≡ rows };
}

impl Table {
    /// The table, unless memory runs out.
    pub fn new(alloc: Global) -> Result<Table, OutOfMemory> {
        match router(alloc) {
            Ok(router) => Ok(Table { router }),
            Err(_) => Err(OutOfMemory),
        }
    }

    /// The place that a target names, up to its first question mark, with the names in it; None where it names
    /// none, or a name in it isn't of the form. Nothing is decoded.
    pub(crate) fn place_of(
        &self,
        alloc: Global,
        target: &[u8],
    ) -> Result<Option<(Resource, Names)>, OutOfMemory>
        ensures { IfOk result (λ place. place ≡ place_of target.now) }
    {
        let path = path_of(target);
        if !path.is_ascii() {
            return Ok(None);
        }
        let Ok(path) = from_utf8(path) else {
            return Ok(None);
        };
        match self.router.at(path) {
            Ok(found) => with_parts(alloc, *found.value, found.params.iter()),
            Err(_) => Ok(None),
        }
    }
}

// The routes of the table, in any order.
fn router(alloc: Global) -> Result<Router<Resource>, InsertError>
    ensures { IfOk result (λ router. router ≡ rows) }
{
    let mut router = Router::new(alloc);
    router.insert("/sites/{site}", Resource::Site)?;
    router.insert("/sites/{site}/report", Resource::SiteReport)?;
    router.insert("/sites/{site}/earl", Resource::SiteEarl)?;
    router.insert("/sites/{site}/csv", Resource::SiteCsv)?;
    router.insert("/sites/{site}/import", Resource::Import)?;
    router.insert("/sites/{site}/languages", Resource::Languages)?;
    router.insert("/sites/{site}/members/{user}", Resource::Member)?;
    router.insert("/sites/{site}/pages/{page}", Resource::Page)?;
    router.insert("/sites/{site}/pages/{page}/report", Resource::PageReport)?;
    router.insert("/sites/{site}/pages/{page}/earl", Resource::PageEarl)?;
    router.insert("/sites/{site}/pages/{page}/names", Resource::PageNames)?;
    router.insert("/sites/{site}/pages/{page}/edits", Resource::Edits)?;
    router.insert(
        "/sites/{site}/pages/{page}/judgements",
        Resource::Judgements,
    )?;
    router.insert("/sites/{site}/pages/{page}/outcomes", Resource::Outcomes)?;
    router.insert(
        "/sites/{site}/pages/{page}/verdicts",
        Resource::PageVerdicts,
    )?;
    router.insert("/sites/{site}/members", Resource::Members)?;
    router.insert("/memberships", Resource::Memberships)?;
    Ok(router)
}

// A place with the names that its parameters are, if they are names.
fn with_parts(
    alloc: Global,
    place: Resource,
    parts: ParamsIter<'_, '_, '_>,
) -> Result<Option<(Resource, Names)>, OutOfMemory>
    requires { AllText parts }
    ensures { IfOk result (λ named. named ≡ with_parts (Some (place, parts.entry))) }
{
    match names_of(alloc, parts)? {
        Some(names) => Ok(Some((place, names))),
        None => Ok(None),
    }
}
