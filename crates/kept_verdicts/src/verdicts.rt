ghost use Rattle.std.specs.Prelude.{◌≡◌, IfOk};
ghost use Rattle.kept_verdicts.specs.Verdicts.{verdicts};

use crate::marks::marks_of;
use judge_core::{Judgement, OutRow};
use snap_tree::{List, OutOfMemory};
use std::alloc::Global;

/// A judgement that is kept of a page.
#[derive(Debug, Drop, PartialEq, Eq)]
pub struct KeptVerdict {
    pub judgement: Judgement,
    /// Whether an outcome of the page is by it.
    pub counts: bool,
}

/// The judgements of a page, in the order in which they were accepted, each with whether it counts for one of the page's
/// outcomes. It takes as long as there are judgements, and judgements on the node of each outcome. Fails only for want of
/// memory.
pub fn verdicts_of(
    alloc: Global,
    rows: &[OutRow],
    js: List<Judgement>,
) -> Result<List<KeptVerdict>, OutOfMemory>
    ensures { IfOk result (λ all. all ≡ verdicts rows.now js) }
{
    let marks = marks_of(alloc, rows, js.as_slice())?;
    let mut verdicts = Vec::with_capacity(alloc, marks.len())?;
    for (judgement, counts) in js.into_vec().into_iter().zip(marks.into_iter()) {
        verdicts.push(KeptVerdict { judgement, counts })?;
    }
    Ok(List::from_vec(verdicts))
}
