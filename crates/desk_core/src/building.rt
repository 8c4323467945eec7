//! The pages of an import, built by many threads that share nothing.

ghost use Rattle.std.specs.Prelude.{◌≡◌, ◌<◌, ◌++◌, ◌∷◌, List, None, IfOk, IfErr, OnOk};
ghost use Rattle.std.specs.Thread.{IsSync};
ghost use Rattle.snap_tree.specs.Faults.{tree_fault};
ghost use Rattle.desk_core.specs.Refusals.{Decision, unless_refused};
ghost use Rattle.desk_core.specs.declared.command.Entry.{Entry};
ghost use Rattle.desk_core.specs.declared.placed.Placed.{Placed};
ghost use Rattle.desk_core.specs.Imports.{first_fault};
ghost use Rattle.desk_core.specs.Placing.{work_of};
ghost use Rattle.desk_core.specs.Building.{Builds};
ghost use Rattle.desk_core.specs.Serving.{Stands};

use crate::command::Entry;
use crate::placed::Placed;
use crate::put_page::build;
use crate::refusal::Refusal;
use audit::{PageWork, share};
use std::alloc::Global;
use std::collections::VecDeque;
use std::thread::{Threads, join};

/// The pages that entries make, in their order, and else the first fault of their rows. At most so many
/// threads build them: a new one builds its share, and this thread shares the others out.
#[cycle(sharing)]
pub fn build_all<R: Threads + Sync>(
    rt: &R,
    alloc: &Global,
    threads: usize,
    placed: VecDeque<Placed>,
) -> Result<Vec<PageWork>, Refusal>
    requires { 0 < threads }
    ensures { Builds placed.items result }
{
    if threads == 1 {
        return build_in_turn(*alloc, placed);
    }
    let rest = threads - 1;
    let mut ones = placed;
    let others = ones.split_off(share(ones.len(), threads))?;
    let first = || -> Result<Vec<PageWork>, Refusal>
        ensures { Builds ones.items result }
    { build_in_turn(*alloc, ones) };
    let later = || -> Result<Vec<PageWork>, Refusal>
        requires sync { IsSync R.row }
        requires some { 0 < rest }
        ensures { Builds others.items result }
    { build_all(rt, alloc, rest, others) };
    let (first, later) = join(rt, first, later);
    joined(first, later)
}

// The pages of two parts, and else the first refusal of theirs.
#[tactic(auto, using(crate::proofs::BuiltParts::builds_both, crate::proofs::BuiltParts::refused_first, crate::proofs::BuiltParts::refused_later))]
fn joined(
    first: Result<Vec<PageWork>, Refusal>,
    later: Result<Vec<PageWork>, Refusal>,
) -> Result<Vec<PageWork>, Refusal>
    ensures { (ones others : List Placed) → Builds ones first → Builds others later → Builds (ones ++ others) result }
{
    let mut all = first?;
    let mut others = later?;
    all.append(&mut others)?;
    Ok(all)
}

// The pages that entries make, one after another.
fn build_in_turn(alloc: Global, placed: VecDeque<Placed>) -> Result<Vec<PageWork>, Refusal>
    ensures { Builds placed.items result }
{
    let mut works = Vec::with_capacity(alloc, placed.len())?;
    let mut left = placed;
    while let Some(first) = left.pop_front() {
        works.push(build_one(alloc, first)?)?;
    }
    Ok(works)
}

// The page that an entry makes, and else the first fault of its rows, whatever entries follow.
fn build_one(alloc: Global, first: Placed) -> Result<PageWork, Refusal>
    ensures work { IfOk result (λ work. work ≡ work_of first) }
    ensures whole { OnOk result (tree_fault first.entry.raw.rows ≡ None) }
    ensures refused { IfErr result (λ r. (others : List Entry) (next : Decision)
        → Stands ⊥ r (unless_refused (first_fault (first.entry ∷ others)) next)) }
{
    let Placed {
        entry,
        judgements,
        ..
    } = first;
    let Entry { page, raw, .. } = entry;
    let tree = build(alloc, Some(page), raw)?;
    Ok(PageWork { tree, judgements })
}
