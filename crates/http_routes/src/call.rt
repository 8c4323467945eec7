ghost use Rattle.std.specs.Prelude.{◌≡◌, IfOk};
ghost use Rattle.http_routes.specs.Calls.{method_of, route_of, caller_of, call_of};
ghost use Rattle.http_routes.specs.Named.{IsNamed};
ghost use Rattle.http_routes.specs.declared.names.Names.TheVariants.{Zero, One, Two};

use crate::fault::RequestFault;
use crate::names::{Names, name_of};
use crate::place::{Resource, Table};
use http_messages::Head;
use std::alloc::Global;
use texts::{OutOfMemory, Text};

/// The methods that routes have.
#[derive(Clone, Copy, Debug, PartialEq, Eq)]
pub(crate) enum Method {
    Get,
    Put,
    Post,
    Delete,
}

/// What is asked, by the path and the method: each route of the table, with the names in its path.
#[derive(Debug, Drop)]
pub enum Route {
    /// `PUT /sites/{site}`
    PutSite { site: Text },
    /// `PUT /sites/{site}/members/{user}`
    PutMember { site: Text, user: Text },
    /// `PUT /sites/{site}/languages`
    PutLanguages { site: Text },
    /// `PUT /sites/{site}/pages/{page}`
    PutPage { site: Text, page: Text },
    /// `GET /sites/{site}/pages/{page}`
    GetPage { site: Text, page: Text },
    /// `DELETE /sites/{site}/pages/{page}`
    DropPage { site: Text, page: Text },
    /// `POST /sites/{site}/import`
    Import { site: Text },
    /// `POST /sites/{site}/pages/{page}/edits`
    EditPage { site: Text, page: Text },
    /// `POST /sites/{site}/pages/{page}/judgements`
    Judge { site: Text, page: Text },
    /// `POST /sites/{site}/pages/{page}/earl`
    TakeEarl { site: Text, page: Text },
    /// `GET /sites/{site}/pages/{page}/outcomes`
    GetOutcomes { site: Text, page: Text },
    /// `GET /sites/{site}/pages/{page}/report`
    GetReport { site: Text, page: Text },
    /// `GET /sites/{site}/pages/{page}/earl`
    GetEarl { site: Text, page: Text },
    /// `GET /sites/{site}/pages/{page}/names`
    GetNames { site: Text, page: Text },
    /// `GET /sites/{site}/report`
    SiteReport { site: Text },
    /// `GET /sites/{site}/earl`
    SiteEarl { site: Text },
    /// `GET /sites/{site}/csv`
    SiteCsv { site: Text },
    /// `GET /sites/{site}/pages/{page}/verdicts`
    GetVerdicts { site: Text, page: Text },
    /// `GET /sites/{site}/members`
    GetMembers { site: Text },
    /// `GET /memberships`
    GetMemberships,
}

/// A request by its head: what is asked, and who asks.
#[derive(Debug, Drop)]
pub struct Call {
    pub route: Route,
    pub caller: Text,
}

/// The request that a head makes; the inner `Err` is the first refusal that holds.
///
/// `NoRoute` is answered where no route has the path, or a name in it isn't of the form; `WrongMethod` where
/// the route hasn't the method; `NoCaller` where there isn't exactly one field `x-caller`, or its value isn't
/// a name.
pub fn call_of(
    alloc: Global,
    table: &Table,
    head: &Head,
) -> Result<Result<Call, RequestFault>, OutOfMemory>
    ensures exact { IfOk result (λ call. call ≡ call_of head.now) }
    ensures named { IfOk result (λ call. IfOk call IsNamed) }
{
    read_call(alloc, table, head)
}

#[tactic(auto, unfolding(crate::specs::Calls::call_of))]
fn read_call(
    alloc: Global,
    table: &Table,
    head: &Head,
) -> Result<Result<Call, RequestFault>, OutOfMemory>
    ensures { IfOk result (λ call. call ≡ call_of head.now) }
{
    let Some((place, names)) = table.place_of(alloc, head.target.as_slice())? else {
        return Ok(Err(RequestFault::NoRoute));
    };
    let Some(method) = method_of(head.method.as_slice()) else {
        return Ok(Err(RequestFault::WrongMethod));
    };
    let Some(route) = route_of(place, names, method) else {
        return Ok(Err(RequestFault::WrongMethod));
    };
    match caller_of(alloc, head)? {
        Some(caller) => Ok(Ok(Call { route, caller })),
        None => Ok(Err(RequestFault::NoCaller)),
    }
}

fn method_of(text: &[u8]) -> Option<Method>
    ensures { result ≡ method_of text.now }
{
    if text == http::Method::GET.as_str().as_bytes() {
        Some(Method::Get)
    } else if text == http::Method::PUT.as_str().as_bytes() {
        Some(Method::Put)
    } else if text == http::Method::POST.as_str().as_bytes() {
        Some(Method::Post)
    } else if text == http::Method::DELETE.as_str().as_bytes() {
        Some(Method::Delete)
    } else {
        None
    }
}

// The route of a place that has the method.
fn route_of(place: Resource, names: Names, method: Method) -> Option<Route>
    ensures { result ≡ route_of place names method }
{
    match names {
        Names::Zero => of_all(place, method),
        Names::One { site } => of_site(place, site, method),
        Names::Two { site, other } => below_site(place, site, other, method),
    }
}

// The routes of all sites.
fn of_all(place: Resource, method: Method) -> Option<Route>
    ensures { result ≡ route_of place Zero method }
{
    match (place, method) {
        (Resource::Memberships, Method::Get) => Some(Route::GetMemberships),
        _ => None,
    }
}

// The routes of a site.
fn of_site(place: Resource, site: Text, method: Method) -> Option<Route>
    ensures { result ≡ route_of place (One site) method }
{
    match (place, method) {
        (Resource::Site, Method::Put) => Some(Route::PutSite { site }),
        (Resource::Languages, Method::Put) => Some(Route::PutLanguages { site }),
        (Resource::Import, Method::Post) => Some(Route::Import { site }),
        (Resource::SiteReport, Method::Get) => Some(Route::SiteReport { site }),
        (Resource::SiteEarl, Method::Get) => Some(Route::SiteEarl { site }),
        (Resource::SiteCsv, Method::Get) => Some(Route::SiteCsv { site }),
        (Resource::Members, Method::Get) => Some(Route::GetMembers { site }),
        _ => None,
    }
}

// The routes of what a site holds.
fn below_site(place: Resource, site: Text, other: Text, method: Method) -> Option<Route>
    ensures { result ≡ route_of place (Two site other) method }
{
    match (place, method) {
        (Resource::Member, Method::Put) => Some(Route::PutMember { site, user: other }),
        (Resource::Page, Method::Put) => Some(Route::PutPage { site, page: other }),
        (Resource::Page, Method::Get) => Some(Route::GetPage { site, page: other }),
        (Resource::Page, Method::Delete) => Some(Route::DropPage { site, page: other }),
        (Resource::Edits, Method::Post) => Some(Route::EditPage { site, page: other }),
        (Resource::Judgements, Method::Post) => Some(Route::Judge { site, page: other }),
        (Resource::Outcomes, Method::Get) => Some(Route::GetOutcomes { site, page: other }),
        (Resource::PageReport, Method::Get) => Some(Route::GetReport { site, page: other }),
        (Resource::PageEarl, Method::Get) => Some(Route::GetEarl { site, page: other }),
        (Resource::PageEarl, Method::Post) => Some(Route::TakeEarl { site, page: other }),
        (Resource::PageNames, Method::Get) => Some(Route::GetNames { site, page: other }),
        (Resource::PageVerdicts, Method::Get) => Some(Route::GetVerdicts { site, page: other }),
        _ => None,
    }
}

fn caller_of(alloc: Global, head: &Head) -> Result<Option<Text>, OutOfMemory>
    ensures { IfOk result (λ caller. caller ≡ caller_of head.now) }
{
    match head.only_named(b"x-caller") {
        Some(field) => name_of(alloc, field.value.as_slice()),
        None => Ok(None),
    }
}
