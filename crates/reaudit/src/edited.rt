ghost use Rattle.std.specs.Prelude.{◌≡◌, ◌+◌, ◌≤◌, List, length, map, sum_by, IfOk};
ghost use Rattle.std.specs.List.{Contains, AllByRecursion};
ghost use Rattle.judge_core.specs.declared.judgement.Judgement.{Judgement};
ghost use Rattle.judge_core.specs.Outcomes.{rule_rows, outcomes, judgings};
ghost use Rattle.judged_rows.specs.ByNode.{IsByNode};
ghost use Rattle.judged_rows.specs.Parts.{IsPart};
ghost use Rattle.rule_core.specs.Reach.{affected};
ghost use Rattle.reaudit.specs.Marks.{AreMarked};
ghost use Rattle.reaudit.specs.Nodes.{AreNodes};
ghost use Rattle.reaudit.specs.Costs.{affected_cost, whole_cost};

use crate::again::atomic_again;
use crate::nodes::{Nodes, nodes_of};
use judge_core::{Judgement, OutRow, Outcomes, infos_of};
use judged_rows::{
    ByNode, RulePart, atomic_part, by_node, composite_part, joined_parts, split_rule,
};
use rule_core::{RuleBook, RuleInfo};
use snap_tree::{List, OutOfMemory, Tree};
use std::alloc::Global;

/// The outcomes of a page that was edited, by those of the old page: where the rows are those of the old page, under
/// whatever judgements, the answer is those of the new page under these judgements, as a full audit has them, and the
/// count of judgings rises by at most the pairs of an atomic rule and a node that the edit affects. Whatever the rows,
/// it rises by at most the atomic rules times the nodes of the new page. Fails only for want of memory.
pub fn reaudit<B: RuleBook>(
    alloc: Global,
    book: &mut B,
    old: &Tree,
    rows: &Outcomes,
    new: &Tree,
    js: &[Judgement],
) -> Result<Outcomes, OutOfMemory>
    requires { old.now.address ≡ new.now.address }
    ensures rows { (earlier : List Judgement) → rows.now.rows ≡ outcomes B.book old.now earlier
        → IfOk result (λ o. o.rows ≡ outcomes B.book new.now js.now) }
    ensures counted { (earlier : List Judgement) → rows.now.rows ≡ outcomes B.book old.now earlier
        → B.calls book.new ≤ B.calls book.old + length (affected B.book old.now new.now) }
    ensures within { B.calls book.new ≤ B.calls book.old + judgings B.book new.now }
{
    let infos = infos_of(alloc, book)?;
    let by_node = by_node(alloc, js)?;
    let found = rows.rows.as_slice();
    let nodes = nodes_of(alloc, old, new, found)?;
    let parts = parts_again(
        alloc,
        book,
        infos.as_slice(),
        old,
        new,
        &nodes,
        found,
        &by_node,
    )?;
    let rows = joined_parts(alloc, parts)?;
    Ok(Outcomes {
        rows: List::from_vec(rows),
    })
}

// The part of each rule, by the rows that were found on the old page.
fn parts_again<B: RuleBook>(
    alloc: Global,
    book: &mut B,
    infos: &[RuleInfo],
    old: &Tree,
    new: &Tree,
    nodes: &Nodes,
    rows: &[OutRow],
    by_node: &ByNode<'_>,
) -> Result<Vec<RulePart>, OutOfMemory>
    requires infos { infos.now ≡ B.book.infos }
    requires address { old.now.address ≡ new.now.address }
    requires nodes { AreNodes old.now new.now nodes.now }
    requires marked { AreMarked nodes.now.marks.items rows.now }
    ensures infos { IfOk result (λ parts. map (λ p. p.info) parts.items ≡ infos.now) }
    ensures parts { (earlier js : List Judgement) → rows.now ≡ outcomes B.book old.now earlier → IsByNode js by_node.now
        → IfOk result (λ parts. AllByRecursion (IsPart B.book new.now js) parts.items) }
    ensures counted { (earlier : List Judgement) → rows.now ≡ outcomes B.book old.now earlier
        → B.calls book.new ≤ B.calls book.old + sum_by (affected_cost B.book old.now new.now) infos.now }
    ensures within { B.calls book.new ≤ B.calls book.old + sum_by (whole_cost new.now) infos.now }
{
    let mut parts = Vec::with_capacity(alloc, infos.len())?;
    let mut left = rows;
    for info in infos {
        let (own, others) = split_rule(left, info.no);
        let part = part_again(alloc, book, info, old, new, nodes, own, by_node)?;
        parts.push(part)?;
        left = others;
    }
    Ok(parts)
}

// The part of a rule, by the rows that it had on the old page; a composite one needs none.
fn part_again<B: RuleBook>(
    alloc: Global,
    book: &mut B,
    info: &RuleInfo,
    old: &Tree,
    new: &Tree,
    nodes: &Nodes,
    rows: &[OutRow],
    by_node: &ByNode<'_>,
) -> Result<RulePart, OutOfMemory>
    requires known { Contains B.book.infos info.now }
    requires address { old.now.address ≡ new.now.address }
    requires nodes { AreNodes old.now new.now nodes.now }
    requires marked { AreMarked nodes.now.marks.items rows.now }
    ensures info { IfOk result (λ part. part.info ≡ info.now) }
    ensures part { (earlier js : List Judgement) → rows.now ≡ rule_rows B.book old.now earlier info.now
        → IsByNode js by_node.now → IfOk result (λ part. IsPart B.book new.now js part) }
    ensures counted { (earlier : List Judgement) → rows.now ≡ rule_rows B.book old.now earlier info.now
        → B.calls book.new ≤ B.calls book.old + affected_cost B.book old.now new.now info.now }
    ensures within { B.calls book.new ≤ B.calls book.old + whole_cost new.now info.now }
{
    if info.is_atomic() {
        let rows = atomic_again(alloc, book, info, old, new, nodes, rows, by_node)?;
        Ok(atomic_part(alloc, info, rows))
    } else {
        composite_part(alloc, info, new)
    }
}
