ghost use Rattle.std.specs.Prelude.{◌<◌, length, sum_by};
ghost use Rattle.desk_core.specs.Costs.{Costs, UsesFirst};
ghost use Rattle.desk_core.specs.Fitting.{FitsRequest};
ghost use Rattle.desk_core.specs.Serving.{Decides, Serves};
ghost use Rattle.desk_core.specs.Steps.{asked_by};
ghost use Rattle.desk_core.specs.Told.{told_of};

use crate::command::Command;
use crate::commit::commit;
use crate::decided::Decided;
use crate::drop_page::drop_page;
use crate::edit_page::edit_page;
use crate::import::import;
use crate::judge::{Said, judge};
use crate::languages::put_languages;
use crate::members::{put_member, put_site};
use crate::members_told::get_members;
use crate::memberships::get_memberships;
use crate::put_page::put_page;
use crate::reads::{PageForm, get_names, get_page, get_shown};
use crate::refusal::Refusal;
use crate::reply::Reply;
use crate::sent::SentPage;
use crate::sheets::{SheetForm, get_sheet};
use crate::take_earl::take_earl;
use crate::verdicts::get_verdicts;
use keep_core::Keeper;
use rule_core::RuleBook;
use snap_tree::Text;
use std::alloc::Global;
use std::thread::Threads;

/// Handles one request of a caller and gives the reply. The request fits: its names are names, its addresses
/// web addresses, its revisions and its note within their limits, the rules that it judges are atomic ones of
/// the book, its claims are at most 10,000, its languages are of the form, and an import has 1 to 64 pages with distinct
/// names. There is at least one book: an import, and all pages under a new list of languages, are audited by all of them,
/// and everything else by the first.
///
/// Where the keeper tells its tables and they were sound, they are sound afterwards, the reply and the
/// change are the machine's, and the rows of all other sites stay. The edition stays. Or the request fails: with `KeeperFault`,
/// where the keeper's count of faults rose in this request, which holds of tables that aren't told too, or
/// with `OutOfMemory`. Whatever it is refused with, the tables stay, sound or not; and sound or not they change
/// only by judgements, by an edit, by a list of languages or by what the machine decides.
///
/// The books judge at most: where rows make trees, each atomic rule on each node of a page that is put or
/// imported, accepted or not; of an edited page, where the edits can be carried out, the pairs of an atomic rule
/// and a node that they affect; for a list of languages those pairs of each page of the site, between the old list and
/// the new one; and for every other request nothing. What an edited page and a list cost is said where the
/// tables are told and sound, and where they are told, sound or not, it is no more than the whole edited page, or all
/// pages. Only an import and a list of languages use other books than the first.
pub fn handle<R: Threads + Sync, K: Keeper, B: RuleBook + Send>(
    rt: &R,
    alloc: Global,
    books: &mut [B],
    keeper: &mut K,
    caller: &Text,
    command: Command,
) -> Reply
    requires some { 0 < length books.old }
    requires fits { FitsRequest B.book (asked_by caller.now command) }
    ensures served { Serves B.book (asked_by caller.now command)
        (told_of K.Keeper keeper.old) (told_of K.Keeper keeper.new) result }
    ensures counted { Costs B.book command (K.tables keeper.old) (K.tables keeper.new) (sum_by B.calls books.old) (sum_by B.calls books.new) }
    ensures others { UsesFirst command books.old books.new }
{
    match decide(rt, alloc, books, keeper, caller, command) {
        Ok(decided) => commit(alloc, keeper, decided),
        Err(refusal) => Reply::Refused(refusal),
    }
}

// What is decided on a request. Its change isn't made yet.
#[tactic(auto, using(crate::proofs::Costing::costs_nothing))]
fn decide<R: Threads + Sync, K: Keeper, B: RuleBook + Send>(
    rt: &R,
    alloc: Global,
    books: &mut [B],
    keeper: &mut K,
    caller: &Text,
    command: Command,
) -> Result<Decided, Refusal>
    requires some { 0 < length books.old }
    requires fits { FitsRequest B.book (asked_by caller.now command) }
    ensures decided { Decides B.book (asked_by caller.now command)
        (told_of K.Keeper keeper.old) (told_of K.Keeper keeper.new) result }
    ensures counted { Costs B.book command (K.tables keeper.old) (K.tables keeper.new) (sum_by B.calls books.old) (sum_by B.calls books.new) }
    ensures others { UsesFirst command books.old books.new }
{
    match command {
        Command::PutSite { site } => put_site(alloc, keeper, caller, site),
        Command::PutMember { site, user, role } => {
            put_member(alloc, keeper, caller, site, user, role)
        }
        Command::PutLanguages { site, languages } => {
            put_languages(rt, alloc, books, keeper, caller, site, languages)
        }
        Command::PutPage {
            site,
            page,
            rev,
            raw,
        } => {
            let sent = SentPage { site, page, rev };
            put_page(alloc, books, keeper, caller, sent, raw)
        }
        Command::DropPage { site, page, rev } => {
            let sent = SentPage { site, page, rev };
            drop_page(alloc, keeper, caller, sent)
        }
        Command::Import { site, entries } => {
            import(rt, alloc, books, keeper, caller, site, entries)
        }
        Command::EditPage {
            site,
            page,
            rev,
            edits,
        } => {
            let sent = SentPage { site, page, rev };
            edit_page(alloc, books, keeper, caller, sent, edits)
        }
        Command::Judge {
            site,
            page,
            rule,
            node,
            verdict,
            digest,
            note,
        } => {
            let said = Said {
                rule,
                node,
                verdict,
                digest,
                note,
            };
            judge(alloc, &books[0], keeper, caller, site, page, said)
        }
        Command::TakeEarl { site, page, claims } => take_earl(
            alloc,
            &books[0],
            keeper,
            caller,
            site,
            page,
            claims.as_slice(),
        ),
        Command::GetPage { site, page } => get_page(alloc, keeper, caller, &site, &page),
        Command::GetNames { site, page } => get_names(alloc, keeper, caller, &site, &page),
        Command::GetOutcomes { site, page } => {
            get_shown(alloc, keeper, caller, &site, &page, PageForm::Outcomes)
        }
        Command::GetReport { site, page } => {
            get_shown(alloc, keeper, caller, &site, &page, PageForm::Report)
        }
        Command::GetEarl { site, page } => {
            get_shown(alloc, keeper, caller, &site, &page, PageForm::Earl)
        }
        Command::SiteReport { site } => get_sheet(alloc, keeper, caller, site, SheetForm::Report),
        Command::SiteEarl { site } => get_sheet(alloc, keeper, caller, site, SheetForm::Earl),
        Command::SiteCsv { site } => get_sheet(alloc, keeper, caller, site, SheetForm::Csv),
        Command::GetVerdicts { site, page } => get_verdicts(alloc, keeper, caller, &site, &page),
        Command::GetMembers { site } => get_members(alloc, keeper, caller, &site),
        Command::GetMemberships => get_memberships(alloc, keeper, caller),
    }
}
