ghost use Rattle.std.specs.Prelude.{◌≡◌, map, IfOk, Option};
ghost use Rattle.std.specs.Option.{option_copied};
ghost use Rattle.std.specs.List.{filter_map};
ghost use Rattle.snap_tree.specs.declared.row.NodeId.{NodeId};
ghost use Rattle.judge_core.specs.declared.outcomes.OutRow.{OutRow};
ghost use Rattle.judged_rows.specs.Merging.{AreOn};
ghost use Rattle.reaudit.specs.Before.{kept_at};

use crate::known::Known;
use judge_core::OutRow;
use judged_rows::{after, head_on};
use snap_tree::{OutOfMemory, Row};
use std::alloc::Global;

/// The row of each node of the old page, where it has one, by the rows in the order of the nodes.
pub(crate) fn rows_before<'a>(
    alloc: Global,
    nodes: &[Row],
    rows: &'a [OutRow],
) -> Result<Vec<Option<&'a OutRow>>, OutOfMemory>
    ensures { (f : NodeId → Option OutRow) → AreOn f → rows.now ≡ filter_map f (map (λ row. row.id) nodes.now)
        → IfOk result (λ before. map option_copied before.items ≡ map (λ row. f row.id) nodes.now) }
{
    let mut before = Vec::with_capacity(alloc, nodes.len())?;
    let mut left = rows;
    for node in nodes {
        before.push(head_on(left, node.id))?;
        left = after(left, node.id);
    }
    Ok(before)
}

/// The row that a node had, where it is known.
#[tactic(auto, using(crate::proofs::Earlier::row_at, crate::proofs::Earlier::no_row))]
pub(crate) fn row_before<'a>(
    before: &[Option<&'a OutRow>],
    known: Option<Known>,
) -> Option<&'a OutRow>
    ensures { option_copied result ≡ kept_at (map option_copied before.now) known }
{
    let known = known?;
    match before.get(known.place) {
        Some(row) => *row,
        None => None,
    }
}
