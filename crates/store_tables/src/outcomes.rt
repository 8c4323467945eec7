//! The table of outcomes: how a row is written, and how it is read.

ghost use Rattle.std.specs.Prelude.{◌≡◌, Some, IfOk};
ghost use Rattle.store_tables.specs.Outcomes.{outcome_from, outcomes_shown, IsOutcomeRow};

use crate::cells;
use crate::fault::StoreFault;
use judge_core::{OutRow, Outcomes};
use snap_tree::List;
use sqlite::Row;
use std::alloc::Global;
use store_statements::OutcomeRow;

/// An outcome at a place of its page's list, as it is written.
///
/// # Errors
///
/// `Failed` where the place is above the greatest number of a column.
pub fn outcome_row<'a>(place: u64, outcome: &'a OutRow) -> Result<OutcomeRow<'a>, StoreFault>
    ensures { IfOk result (λ row. IsOutcomeRow place outcome.now row) }
{
    let seq = cells::column_number(place)?;
    Ok(OutcomeRow {
        seq,
        rule: i64::from(outcome.rule.0),
        node: i64::from(outcome.node.0),
        auto: cells::auto_number(outcome.auto),
        reason: outcome.reason.word(),
        evidence: outcome.evidence.as_str(),
        last: cells::auto_number(outcome.last),
        hand: outcome.hand.as_str(),
    })
}

#[tactic(auto, unfolding(crate::specs::Outcomes::outcome_from))]
fn outcome(row: &Row, place: u64) -> Result<OutRow, StoreFault>
    ensures { IfOk result (λ o. outcome_from place row.now ≡ Some o) }
{
    cells::place(row, 0, place)?;
    let rule = cells::rule(row, 1)?;
    let node = cells::node(row, 2)?;
    let auto = cells::auto(row, 3)?;
    let reason = cells::reason(row, 4)?;
    let evidence = cells::text(row, 5)?;
    let last = cells::auto(row, 6)?;
    let hand = cells::text(row, 7)?;
    Ok(OutRow {
        rule,
        node,
        auto,
        reason,
        evidence,
        last,
        hand,
    })
}

/// The outcomes of a page, whose places count from 1.
pub fn read_outcomes(alloc: Global, rows: &[Row]) -> Result<Outcomes, StoreFault>
    ensures { IfOk result (λ os. outcomes_shown rows.now ≡ Some os) }
{
    let mut outcomes = Vec::new(alloc);
    let mut place = 1u64;
    for row in rows {
        outcomes.push(outcome(row, place)?)?;
        place += 1;
    }
    Ok(Outcomes {
        rows: List::from_vec(outcomes),
    })
}
