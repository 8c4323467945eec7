//! The rows of a page's outcomes, by rule and node.

ghost use Rattle.std.specs.Prelude.{◌≡◌, List, IfOk, OnOk};
ghost use Rattle.std.specs.Option.{option_copied};
ghost use Rattle.judge_core.specs.declared.outcomes.OutRow.{OutRow};
ghost use Rattle.judge_core.specs.RowLookups.{row_at};
ghost use Rattle.earl_in.specs.Standing.{HasRow, HasRows};

use judge_core::OutRow;
use rule_core::RuleNo;
use snap_tree::{NodeId, OutOfMemory};
use std::alloc::Global;
use std::collections::BTreeMap;

/// A rule on a node.
#[derive(Clone, Copy, PartialEq, Eq, PartialOrd, Ord)]
pub(crate) struct Place {
    pub(crate) rule: RuleNo,
    pub(crate) node: NodeId,
}

/// The first row of each rule on each node.
pub(crate) type Places<'a> = BTreeMap<Place, &'a OutRow>;

/// The rows of a list by their places.
pub(crate) fn places_of<'a>(alloc: Global, rows: &'a [OutRow]) -> Result<Places<'a>, OutOfMemory>
    ensures { IfOk result (λ places. HasRows places rows.now) }
{
    let mut places = BTreeMap::new(alloc);
    for row in rows {
        put(&mut places, row)?;
    }
    Ok(places)
}

// A row, unless there is one of its place.
fn put<'a>(places: &mut Places<'a>, row: &'a OutRow) -> Result<(), OutOfMemory>
    ensures { OnOk result (HasRow places.old places.new row.now) }
{
    let place = Place {
        rule: row.rule,
        node: row.node,
    };
    if places.contains_key(&place) {
        return Ok(());
    }
    places.insert(place, row)?;
    Ok(())
}

/// The row of a rule on a node.
pub(crate) fn row_at<'a>(places: &Places<'a>, rule: RuleNo, node: NodeId) -> Option<&'a OutRow>
    ensures { (rows : List OutRow) → HasRows places.now rows → option_copied result ≡ row_at rule node rows }
{
    places.get(&Place { rule, node }).copied()
}
