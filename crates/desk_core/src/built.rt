ghost use Rattle.std.specs.Prelude.{◌≡◌, ◌+◌, ◌≤◌, length, map, IfOk};
ghost use Rattle.std.specs.List.{zip};
ghost use Rattle.judge_core.specs.declared.outcomes.Outcomes.{Outcomes};
ghost use Rattle.desk_core.specs.Placing.{heads_from, put_of};

use crate::placed::Placed;
use audit::PageWork;
use judge_core::Outcomes;
use keep_core::{MOST_REVISION, Page, PageHead, PagePut};
use snap_tree::{List, OutOfMemory, Text};
use std::alloc::Global;

/// The pages of an import: their heads, with their new revisions, and their trees with their judgements.
#[derive(Drop)]
pub struct Built {
    pub heads: List<PageHead>,
    pub works: List<PageWork>,
}

/// The heads of the pages that entries make, one revision after another.
pub fn heads_from(
    alloc: Global,
    hand: &Text,
    counter: u64,
    placed: &[Placed],
) -> Result<List<PageHead>, OutOfMemory>
    requires { counter + length placed.now ≤ MOST_REVISION }
    ensures { IfOk result (λ heads. heads ≡ heads_from hand.now counter placed.now) }
{
    let mut heads = Vec::with_capacity(alloc, placed.len())?;
    let mut left = placed;
    let mut rev = counter;
    while let Some((first, others)) = left.split_first() {
        rev += 1;
        let page = first.entry.page.copy(alloc)?;
        let hand = hand.copy(alloc)?;
        heads.push(PageHead { page, rev, hand })?;
        left = others;
    }
    Ok(List::from_vec(heads))
}

/// Each page with its head and its outcomes.
pub fn put_all(
    alloc: Global,
    built: Built,
    outcomes: Vec<Outcomes>,
) -> Result<List<PagePut>, OutOfMemory>
    ensures { IfOk result (λ puts. puts ≡ map put_of (zip built.heads (zip built.works outcomes.items))) }
{
    let mut puts = Vec::with_capacity(alloc, outcomes.len())?;
    let works = built.works.into_vec().into_iter().zip(outcomes.into_iter());
    for (head, (work, outcomes)) in built.heads.into_vec().into_iter().zip(works) {
        let tree = work.tree;
        puts.push(PagePut {
            page: Page { head, tree },
            outcomes,
        })?;
    }
    Ok(List::from_vec(puts))
}
