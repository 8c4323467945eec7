ghost use Rattle.std.specs.Prelude.{◌≡◌, None};
ghost use Rattle.rule_core.specs.Books.{Book};
ghost use Rattle.desk_core.specs.declared.command.Command.TheVariants.{GetPage, GetNames};
ghost use Rattle.desk_core.specs.declared.reply.Reply.TheVariants as reply;
ghost use Rattle.desk_core.specs.Reading.{shown_as, asked_as};
ghost use Rattle.desk_core.specs.Serving.{DecidesByAny, ReadsPage};
ghost use Rattle.desk_core.specs.Told.{told_of};

use crate::decided::Decided;
use crate::look::{find_page, find_shown};
use crate::refusal::{Needed, Refusal};
use crate::reply::Reply;
use keep_core::{Keeper, Page, SitePage};
use kept_pages::site_page;
use snap_tree::Text;
use std::alloc::Global;

fn answered(reply: Reply) -> Decided
    ensures { result ≡ record { change = None; reply = reply } }
{
    Decided {
        change: None,
        reply,
    }
}

fn names_of(page: Page) -> Decided
    ensures { result ≡ record { change = None; reply = reply.Names page.tree } }
{
    answered(Reply::Names(page.tree))
}

/// A page.
pub fn get_page<K: Keeper>(
    alloc: Global,
    keeper: &mut K,
    caller: &Text,
    site: &Text,
    page: &Text,
) -> Result<Decided, Refusal>
    ensures { DecidesByAny caller.now (GetPage site.now page.now)
        (told_of K.Keeper keeper.old) (told_of K.Keeper keeper.new) result }
{
    let found = find_page(alloc, keeper, Needed::Reader, caller, site, page)?;
    Ok(answered(Reply::Page(found)))
}

/// The tree of a page, of whose nodes the names are wanted.
pub fn get_names<K: Keeper>(
    alloc: Global,
    keeper: &mut K,
    caller: &Text,
    site: &Text,
    page: &Text,
) -> Result<Decided, Refusal>
    ensures { DecidesByAny caller.now (GetNames site.now page.now)
        (told_of K.Keeper keeper.old) (told_of K.Keeper keeper.new) result }
{
    let found = find_page(alloc, keeper, Needed::Reader, caller, site, page)?;
    Ok(names_of(found))
}

fn read_page<K: Keeper>(
    alloc: Global,
    keeper: &mut K,
    caller: &Text,
    site: &Text,
    page: &Text,
) -> Result<SitePage, Refusal>
    ensures { (book : Book) → ReadsPage book caller.now site.now page.now
        (told_of K.Keeper keeper.old) (told_of K.Keeper keeper.new) result }
{
    let found = find_shown(alloc, keeper, Needed::Reader, caller, site, page)?;
    let shown = site_page(alloc, found.0, found.1)?;
    Ok(shown)
}

/// How a page is shown with its outcomes.
#[derive(Clone, Copy, Debug, PartialEq, Eq)]
pub enum PageForm {
    /// As they are.
    Outcomes,
    /// In a report.
    Report,
    /// As EARL.
    Earl,
}

fn shown_as(showing: PageForm, shown: SitePage) -> Decided
    ensures { result ≡ record { change = None; reply = shown_as showing shown } }
{
    match showing {
        PageForm::Outcomes => answered(Reply::Outcomes(shown)),
        PageForm::Report => answered(Reply::Report(shown)),
        PageForm::Earl => answered(Reply::Earl(shown)),
    }
}

/// A page with its outcomes, as it was asked for.
pub fn get_shown<K: Keeper>(
    alloc: Global,
    keeper: &mut K,
    caller: &Text,
    site: &Text,
    page: &Text,
    showing: PageForm,
) -> Result<Decided, Refusal>
    ensures { DecidesByAny caller.now (asked_as showing site.now page.now)
        (told_of K.Keeper keeper.old) (told_of K.Keeper keeper.new) result }
{
    let shown = read_page(alloc, keeper, caller, site, page)?;
    Ok(shown_as(showing, shown))
}
