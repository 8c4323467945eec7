ghost use Rattle.std.specs.Prelude.{◌≡◌, ◌+◌, ◌≤◌, List, map, length, IfOk};
ghost use Rattle.snap_tree.specs.Trees.{rows_of};
ghost use Rattle.judge_core.specs.declared.judgement.Judgement.{Judgement};
ghost use Rattle.judge_core.specs.Outcomes.{row_of, atomic_rows};
ghost use Rattle.judged_rows.specs.ByNode.{IsByNode};

use judge_core::OutRow;
use judged_rows::{ByNode, row_of};
use rule_core::{NodeVerdict, RuleBook, RuleNo};
use snap_tree::{List, OutOfMemory, Tree};
use std::alloc::Global;

// The rows of the verdicts of a rule on a page.
fn rows_of(
    alloc: Global,
    by_node: &ByNode<'_>,
    rule: RuleNo,
    verdicts: Vec<NodeVerdict>,
) -> Result<Vec<OutRow>, OutOfMemory>
    ensures { (js : List Judgement) → IsByNode js by_node.now
        → IfOk result (λ rows. rows.items ≡ map (λ v. row_of rule v.node js v.verdict) verdicts.items) }
{
    let mut rows = Vec::with_capacity(alloc, verdicts.len())?;
    for found in verdicts {
        let row = row_of(alloc, by_node, rule, found.node, found.verdict)?;
        rows.push(row)?;
    }
    Ok(rows)
}

/// The rows of an atomic rule: the page is judged by it.
pub(crate) fn atomic_rows<B: RuleBook>(
    alloc: Global,
    book: &mut B,
    tree: &Tree,
    by_node: &ByNode<'_>,
    rule: RuleNo,
) -> Result<List<OutRow>, OutOfMemory>
    ensures rows { (js : List Judgement) → IsByNode js by_node.now → IfOk result
        (λ rows. rows ≡ atomic_rows B.book tree.now js rule) }
    ensures counted { B.calls book.new ≤ B.calls book.old + length (rows_of tree.now.trees) }
{
    let verdicts = book.judge_page(alloc, tree, rule)?;
    let rows = rows_of(alloc, by_node, rule, verdicts)?;
    Ok(List::from_vec(rows))
}
