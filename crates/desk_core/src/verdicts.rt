ghost use Rattle.std.specs.Prelude.{◌≡◌, None};
ghost use Rattle.rule_core.specs.Books.{Book};
ghost use Rattle.desk_core.specs.declared.command.Command.TheVariants.{GetVerdicts};
ghost use Rattle.desk_core.specs.declared.reply.Reply.TheVariants as reply;
ghost use Rattle.desk_core.specs.Serving.{DecidesByAny};
ghost use Rattle.desk_core.specs.ToldReads.{ReadsVerdicts};
ghost use Rattle.desk_core.specs.Told.{told_of};

use crate::decided::Decided;
use crate::look::find_kept;
use crate::refusal::{Needed, Refusal};
use crate::reply::{PageVerdicts, Reply};
use keep_core::{Keeper, KeptPage};
use kept_verdicts::verdicts_of;
use snap_tree::Text;
use std::alloc::Global;

fn verdicts_reply(verdicts: PageVerdicts) -> Decided
    ensures { result ≡ record { change = None; reply = reply.Verdicts verdicts } }
{
    Decided {
        change: None,
        reply: Reply::Verdicts(verdicts),
    }
}

fn read_verdicts<K: Keeper>(
    alloc: Global,
    keeper: &mut K,
    caller: &Text,
    site: &Text,
    page: &Text,
) -> Result<PageVerdicts, Refusal>
    ensures { (book : Book) → ReadsVerdicts book caller.now site.now page.now
        (told_of K.Keeper keeper.old) (told_of K.Keeper keeper.new) result }
{
    let kept = find_kept(alloc, keeper, Needed::Reader, caller, site, page)?;
    let KeptPage {
        page,
        judgements,
        outcomes,
    } = kept;
    let verdicts = verdicts_of(alloc, outcomes.rows.as_slice(), judgements)?;
    Ok(PageVerdicts {
        rev: page.head.rev,
        verdicts,
    })
}

/// The judgements of a page in the order in which they were accepted, each with whether it counts for one of the page's
/// outcomes now.
pub fn get_verdicts<K: Keeper>(
    alloc: Global,
    keeper: &mut K,
    caller: &Text,
    site: &Text,
    page: &Text,
) -> Result<Decided, Refusal>
    ensures { DecidesByAny caller.now (GetVerdicts site.now page.now)
        (told_of K.Keeper keeper.old) (told_of K.Keeper keeper.new) result }
{
    let verdicts = read_verdicts(alloc, keeper, caller, site, page)?;
    Ok(verdicts_reply(verdicts))
}
