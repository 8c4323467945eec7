ghost use Rattle.desk_core.specs.Fitting.{AreNames};
ghost use Rattle.desk_core.specs.InHand.{dropping};
ghost use Rattle.desk_core.specs.Pages.{drop_page};
ghost use Rattle.desk_core.specs.Serving.{Agrees, DecidesByAny};
ghost use Rattle.desk_core.specs.Told.{told_of};

use crate::decided::Decided;
use crate::look::find_page;
use crate::refusal::{Needed, Refusal};
use crate::reply::Reply;
use crate::sent::SentPage;
use keep_core::{Change, Keeper, Page};
use snap_tree::Text;
use std::alloc::Global;

/// Drops a page.
pub fn drop_page<K: Keeper>(
    alloc: Global,
    keeper: &mut K,
    caller: &Text,
    sent: SentPage,
) -> Result<Decided, Refusal>
    requires { AreNames sent.site sent.page }
    ensures { DecidesByAny caller.now (dropping sent) (told_of K.Keeper keeper.old) (told_of K.Keeper keeper.new) result }
{
    let found = find_page(
        alloc,
        keeper,
        Needed::Editor,
        caller,
        &sent.site,
        &sent.page,
    )?;
    decide(alloc, sent, &found)
}

fn decide(alloc: Global, sent: SentPage, found: &Page) -> Result<Decided, Refusal>
    ensures { Agrees ⊥ result (drop_page sent.site sent.page sent.rev found.now) }
{
    let current = found.head.rev;
    if sent.rev != current {
        return Err(Refusal::StaleRevision {
            current,
            page: None,
        });
    }
    let page = sent.page.copy(alloc)?;
    Ok(Decided {
        change: Some(Change::DropPage {
            site: sent.site,
            page: sent.page,
        }),
        reply: Reply::Dropped { page },
    })
}
