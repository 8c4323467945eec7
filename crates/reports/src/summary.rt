ghost use Rattle.std.specs.Prelude.{◌≡◌, IfOk};
ghost use Rattle.std.specs.String.{string_bytes};
ghost use Rattle.reports.specs.Summary.{summary_front, summary_line};

use crate::sums::Sums;
use crate::text::totals_line;
use snap_tree::OutOfMemory;
use std::alloc::Global;

/// The summary of pages that were audited, as one line: how many there are, how many nodes they have, and the
/// sums of their outcomes. Fails only for want of memory.
pub fn summary_line(
    alloc: Global,
    pages: usize,
    nodes: u64,
    sums: Sums,
) -> Result<String, OutOfMemory>
    ensures { IfOk result (λ line. string_bytes line ≡ summary_line pages nodes sums) }
{
    let front = summary_front(alloc, pages, nodes)?;
    let totals = totals_line(
        alloc,
        sums.passed,
        sums.failed,
        sums.cant_tell,
        sums.inapplicable,
    )?;
    Ok(format!(in alloc; "{front}{totals}")?)
}

// What stands in the line before the sums.
#[tactic(auto, unfolding(crate::specs::Summary::summary_front))]
fn summary_front(alloc: Global, pages: usize, nodes: u64) -> Result<String, OutOfMemory>
    ensures { IfOk result (λ front. string_bytes front ≡ summary_front pages nodes) }
{
    Ok(format!(in alloc; "pages {pages} nodes {nodes} ")?)
}
