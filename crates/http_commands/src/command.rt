ghost use Rattle.std.specs.Prelude.{IfOk};
ghost use Rattle.web_address.specs.Address.{IsWebAddress};
ghost use Rattle.http_commands.specs.Shapes.{Gives};
ghost use Rattle.http_commands.specs.Commands.{put_member, put_languages, put_page, put_raw, drop_page, import, edit_page, judge, take_earl, command_of};
ghost use Rattle.http_commands.specs.Fitting.{IsWeb};

use crate::claims::claims_in;
use crate::edits::edits_in;
use crate::entries::entries_in;
use crate::judging::{Opinion, opinion_in};
use crate::languages::languages_in;
use crate::revision::revision_in;
use crate::roles::role_in;
use crate::shape::{json_in, snapshot_in};
use crate::unasked::Unasked;
use desk_core::Command;
use http_messages::Head;
use http_routes::Route;
use rule_core::RuleBook;
use snap_json::{SnapFault, read_raw};
use snap_tree::{Raw, Text};
use std::alloc::Global;

/// The command of a route, by the head and the body of the message.
pub(crate) fn command_of<B: RuleBook>(
    alloc: Global,
    book: &B,
    head: &Head,
    body: &[u8],
    route: Route,
) -> Result<Command, Unasked>
    ensures exact { Gives result (command_of B.book.infos head.now body.now route) }
    ensures web { IfOk result IsWeb }
{
    match route {
        Route::PutSite { site } => Ok(Command::PutSite { site }),
        Route::PutMember { site, user } => put_member(alloc, body, site, user),
        Route::PutLanguages { site } => put_languages(alloc, body, site),
        Route::PutPage { site, page } => put_page(alloc, head, body, site, page),
        Route::GetPage { site, page } => Ok(Command::GetPage { site, page }),
        Route::DropPage { site, page } => drop_page(head, site, page),
        Route::Import { site } => import(alloc, body, site),
        Route::EditPage { site, page } => edit_page(alloc, head, body, site, page),
        Route::Judge { site, page } => judge(alloc, book, body, site, page),
        Route::TakeEarl { site, page } => take_earl(alloc, book, body, site, page),
        Route::GetOutcomes { site, page } => Ok(Command::GetOutcomes { site, page }),
        Route::GetReport { site, page } => Ok(Command::GetReport { site, page }),
        Route::GetEarl { site, page } => Ok(Command::GetEarl { site, page }),
        Route::GetNames { site, page } => Ok(Command::GetNames { site, page }),
        Route::SiteReport { site } => Ok(Command::SiteReport { site }),
        Route::SiteEarl { site } => Ok(Command::SiteEarl { site }),
        Route::SiteCsv { site } => Ok(Command::SiteCsv { site }),
        Route::GetVerdicts { site, page } => Ok(Command::GetVerdicts { site, page }),
        Route::GetMembers { site } => Ok(Command::GetMembers { site }),
        Route::GetMemberships => Ok(Command::GetMemberships),
    }
}

fn put_member(alloc: Global, body: &[u8], site: Text, user: Text) -> Result<Command, Unasked>
    ensures exact { Gives result (put_member body.now site user) }
    ensures web { IfOk result IsWeb }
{
    let body = json_in(alloc, body)?;
    let role = role_in(&body)?;
    Ok(Command::PutMember { site, user, role })
}

fn put_languages(alloc: Global, body: &[u8], site: Text) -> Result<Command, Unasked>
    ensures exact { Gives result (put_languages body.now site) }
    ensures web { IfOk result IsWeb }
{
    let body = json_in(alloc, body)?;
    let languages = languages_in(alloc, &body)?;
    Ok(Command::PutLanguages { site, languages })
}

// A body that is read straight as a snapshot is one; of any other the first refusal is told by the value that it is.
fn put_page(
    alloc: Global,
    head: &Head,
    body: &[u8],
    site: Text,
    page: Text,
) -> Result<Command, Unasked>
    ensures exact { Gives result (put_page head.now body.now site page) }
    ensures web { IfOk result IsWeb }
{
    match read_raw(alloc, body) {
        Ok(raw) => put_raw(head, site, page, raw),
        Err(SnapFault::OutOfMemory) => Err(Unasked::OutOfMemory),
        Err(_) => put_value(alloc, head, body, site, page),
    }
}

fn put_raw(head: &Head, site: Text, page: Text, raw: Raw) -> Result<Command, Unasked>
    ensures exact { Gives result (put_raw head.now site page raw) }
    ensures web { IsWebAddress raw.address → IfOk result IsWeb }
{
    let rev = revision_in(head)?;
    Ok(Command::PutPage {
        site,
        page,
        rev,
        raw,
    })
}

fn put_value(
    alloc: Global,
    head: &Head,
    body: &[u8],
    site: Text,
    page: Text,
) -> Result<Command, Unasked>
    ensures exact { Gives result (put_page head.now body.now site page) }
    ensures web { IfOk result IsWeb }
{
    let body = json_in(alloc, body)?;
    let rev = revision_in(head)?;
    let raw = snapshot_in(alloc, &body)?;
    Ok(Command::PutPage {
        site,
        page,
        rev,
        raw,
    })
}

fn drop_page(head: &Head, site: Text, page: Text) -> Result<Command, Unasked>
    ensures exact { Gives result (drop_page head.now site page) }
    ensures web { IfOk result IsWeb }
{
    let rev = revision_in(head)?;
    Ok(Command::DropPage { site, page, rev })
}

fn import(alloc: Global, body: &[u8], site: Text) -> Result<Command, Unasked>
    ensures exact { Gives result (import body.now site) }
    ensures web { IfOk result IsWeb }
{
    let body = json_in(alloc, body)?;
    let entries = entries_in(alloc, &body)?;
    Ok(Command::Import { site, entries })
}

fn edit_page(
    alloc: Global,
    head: &Head,
    body: &[u8],
    site: Text,
    page: Text,
) -> Result<Command, Unasked>
    ensures exact { Gives result (edit_page head.now body.now site page) }
    ensures web { IfOk result IsWeb }
{
    let body = json_in(alloc, body)?;
    let rev = revision_in(head)?;
    let edits = edits_in(alloc, &body)?;
    Ok(Command::EditPage {
        site,
        page,
        rev,
        edits,
    })
}

fn judge<B: RuleBook>(
    alloc: Global,
    book: &B,
    body: &[u8],
    site: Text,
    page: Text,
) -> Result<Command, Unasked>
    ensures exact { Gives result (judge B.book.infos body.now site page) }
    ensures web { IfOk result IsWeb }
{
    let body = json_in(alloc, body)?;
    let Opinion {
        rule,
        node,
        verdict,
        digest,
        note,
    } = opinion_in(alloc, book, &body)?;
    Ok(Command::Judge {
        site,
        page,
        rule,
        node,
        verdict,
        digest,
        note,
    })
}

fn take_earl<B: RuleBook>(
    alloc: Global,
    book: &B,
    body: &[u8],
    site: Text,
    page: Text,
) -> Result<Command, Unasked>
    ensures exact { Gives result (take_earl B.book.infos body.now site page) }
    ensures web { IfOk result IsWeb }
{
    let body = json_in(alloc, body)?;
    let claims = claims_in(alloc, book, &body)?;
    Ok(Command::TakeEarl { site, page, claims })
}
