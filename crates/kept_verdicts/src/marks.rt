ghost use Rattle.std.specs.Prelude.{◌≡◌, replicate, false, IfOk};
ghost use Rattle.kept_verdicts.specs.Verdicts.{HasMarked, AreMarked};

use crate::counting::counting_place;
use crate::places::places_of;
use judge_core::{Judgement, OutRow};
use snap_tree::OutOfMemory;
use std::alloc::Global;

fn mark(marks: &mut Vec<bool>, place: Option<usize>)
    ensures { HasMarked marks.old.items place marks.new.items }
{
    let Some(place) = place else {
        return;
    };
    if place < marks.len() {
        marks[place] = true;
    }
}

fn no_marks(alloc: Global, count: usize) -> Result<Vec<bool>, OutOfMemory>
    ensures { IfOk result (λ marks. marks.items ≡ replicate count false) }
{
    let mut marks = Vec::new(alloc);
    marks.resize(count, false)?;
    Ok(marks)
}

/// Whether each judgement of a list counts for some row. Each list is gone over once, and for each row the judgements on its node.
/// Fails only for want of memory.
#[tactic(auto, using(crate::proofs::MarkSteps::none_marked))]
pub fn marks_of(alloc: Global, rows: &[OutRow], js: &[Judgement]) -> Result<Vec<bool>, OutOfMemory>
    ensures { IfOk result (λ marks. AreMarked rows.now js.now marks.items) }
{
    let places = places_of(alloc, js)?;
    let mut marks = no_marks(alloc, js.len())?;
    for row in rows {
        let place = counting_place(&places, js, row);
        mark(&mut marks, place);
    }
    Ok(marks)
}
