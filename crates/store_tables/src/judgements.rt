//! The table of judgements: how a row is written, and how it is read.

ghost use Rattle.std.specs.Prelude.{◌≡◌, Some, IfOk};
ghost use Rattle.store_tables.specs.Judgements.{judgement_from, judgements_shown, IsJudgementRow};

use crate::cells;
use crate::fault::StoreFault;
use judge_core::Judgement;
use snap_tree::List;
use sqlite::Row;
use std::alloc::Global;
use store_statements::JudgementRow;

/// A judgement at a place of its page's list, as it is written.
///
/// # Errors
///
/// `Failed` where the place is above the greatest number of a column.
pub fn judgement_row<'a>(
    place: u64,
    judgement: &'a Judgement,
) -> Result<JudgementRow<'a>, StoreFault>
    ensures { IfOk result (λ row. IsJudgementRow place judgement.now row) }
{
    let seq = cells::column_number(place)?;
    Ok(JudgementRow {
        seq,
        rule: i64::from(judgement.rule.0),
        node: i64::from(judgement.node.0),
        verdict: cells::auto_number(judgement.verdict),
        hand: judgement.hand.as_str(),
        note: judgement.note.as_str(),
        evidence: judgement.evidence.as_str(),
    })
}

#[tactic(auto, unfolding(crate::specs::Judgements::judgement_from))]
fn judgement(row: &Row, place: u64) -> Result<Judgement, StoreFault>
    ensures { IfOk result (λ j. judgement_from place row.now ≡ Some j) }
{
    cells::place(row, 0, place)?;
    let rule = cells::rule(row, 1)?;
    let node = cells::node(row, 2)?;
    let verdict = cells::auto(row, 3)?;
    let hand = cells::text(row, 4)?;
    let note = cells::text(row, 5)?;
    let evidence = cells::text(row, 6)?;
    Ok(Judgement {
        rule,
        node,
        verdict,
        hand,
        note,
        evidence,
    })
}

/// The judgements of a page, whose places count from 1.
pub fn read_judgements(alloc: Global, rows: &[Row]) -> Result<List<Judgement>, StoreFault>
    ensures { IfOk result (λ js. judgements_shown rows.now ≡ Some js) }
{
    let mut judgements = Vec::new(alloc);
    let mut place = 1u64;
    for row in rows {
        judgements.push(judgement(row, place)?)?;
        place += 1;
    }
    Ok(List::from_vec(judgements))
}
