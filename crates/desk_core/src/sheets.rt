ghost use Rattle.std.specs.Prelude.{◌≡◌, None};
ghost use Rattle.rule_core.specs.Books.{Book};
ghost use Rattle.desk_core.specs.Serving.{DecidesByAny};
ghost use Rattle.desk_core.specs.Told.{told_of};
ghost use Rattle.desk_core.specs.Sheets.{sheet_asked, sheet_reply, ReadsSheet};

use crate::decided::Decided;
use crate::enter::enter;
use crate::refusal::{Needed, Refusal};
use crate::reply::{Reply, Sheet};
use keep_core::Keeper;
use kept_pages::site_pages;
use snap_tree::Text;
use std::alloc::Global;

/// What is wanted of a site's pages.
#[derive(Clone, Copy, Debug, PartialEq, Eq)]
pub enum SheetForm {
    Report,
    Earl,
    Csv,
}

fn sheet_reply(form: SheetForm, sheet: Sheet) -> Decided
    ensures { result ≡ record { change = None; reply = sheet_reply form sheet } }
{
    let reply = match form {
        SheetForm::Report => Reply::SiteReport(sheet),
        SheetForm::Earl => Reply::SiteEarl(sheet),
        SheetForm::Csv => Reply::SiteCsv(sheet),
    };
    Decided {
        change: None,
        reply,
    }
}

fn read_sheet<K: Keeper>(
    alloc: Global,
    keeper: &mut K,
    caller: &Text,
    site: Text,
) -> Result<Sheet, Refusal>
    ensures { (book : Book) → ReadsSheet book caller.now site (told_of K.Keeper keeper.old) (told_of K.Keeper keeper.new) result }
{
    enter(alloc, keeper, Needed::Reader, caller, &site)?;
    let pages = site_pages(alloc, keeper, &site)?;
    Ok(Sheet { site, pages })
}

/// All pages of a site with their outcomes, in byte order of their names, for the report, the EARL or the CSV
/// that is wanted.
pub fn get_sheet<K: Keeper>(
    alloc: Global,
    keeper: &mut K,
    caller: &Text,
    site: Text,
    form: SheetForm,
) -> Result<Decided, Refusal>
    ensures { DecidesByAny caller.now (sheet_asked form site) (told_of K.Keeper keeper.old) (told_of K.Keeper keeper.new) result }
{
    let sheet = read_sheet(alloc, keeper, caller, site)?;
    Ok(sheet_reply(form, sheet))
}
