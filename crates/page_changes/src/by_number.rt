ghost use Rattle.std.specs.Prelude.{◌≡◌, not, IfOk};
ghost use Rattle.std.specs.Option.{is_some};
ghost use Rattle.acc_tree.specs.Seen.{seen};
ghost use Rattle.acc_tree.specs.Sights.{sight_of};
ghost use Rattle.page_changes.specs.Marks.{marks_of};
ghost use Rattle.page_changes.specs.ByNumber.{agreed, HasEach, AreByNumber, strange};

use crate::marks::Marks;
use acc_tree::row_of;
use number_tables::NumberTable;
use snap_tree::{NodeId, OutOfMemory, Tree};
use std::alloc::Global;

/// What of a node is the same on the other page, as far as that is asked of a number.
#[derive(Clone, Copy)]
pub(crate) struct Agreement {
    pub(crate) itself: bool,
    pub(crate) own: bool,
    pub(crate) tree: bool,
}

#[inline(always)]
fn agreed(marks: Marks) -> Agreement
    ensures { result ≡ agreed marks }
{
    Agreement {
        itself: marks.itself,
        own: marks.own,
        tree: marks.tree,
    }
}

/// What of each node of a page is the same, by its number, as the marks of a list say.
pub(crate) fn by_number(
    alloc: Global,
    each: &[Marks],
) -> Result<NumberTable<Agreement>, OutOfMemory>
    ensures { IfOk result (λ table. HasEach each.now table) }
{
    let mut table = NumberTable::with_room(alloc, each.len())?;
    let mut rest = each;
    while let Some((marks, later)) = rest.split_first() {
        table.put(marks.node.0, agreed(*marks))?;
        rest = later;
    }
    Ok(table)
}

#[inline(never)]
#[tactic(auto, using(crate::proofs::Strangers::row_lost))]
fn is_lost(page: &Tree, n: NodeId) -> bool
    ensures { result ≡ not (is_some (sight_of (seen page.now.trees) n)) }
{
    row_of(page, n).is_none()
}

fn strange(lost: bool) -> Agreement
    ensures { result ≡ strange lost }
{
    Agreement {
        itself: lost,
        own: lost,
        tree: lost,
    }
}

/// What of any number is the same, whether the old page holds it or not.
#[inline(never)]
pub(crate) fn agreed_at(
    old: &Tree,
    new: &Tree,
    by_number: &NumberTable<Agreement>,
    n: NodeId,
) -> Agreement
    requires { AreByNumber (seen old.now.trees) (seen new.now.trees) by_number.now }
    ensures { result ≡ agreed (marks_of (seen old.now.trees) (seen new.now.trees) n) }
{
    let _ = old;
    match by_number.at(n.0) {
        Some(agreed) => agreed,
        None => strange(is_lost(new, n)),
    }
}
