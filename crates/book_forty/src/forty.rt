ghost use Rattle.std.specs.Prelude.{◌≡◌, slice_get};
ghost use Rattle.counts.specs.Counts.{raised};

use crate::table::{infos_forty, said, said_of_page};
use counts::next;
use rule_core::{NodeVerdict, RuleBook, RuleInfo, RuleNo, Verdict};
use snap_tree::{NodeId, OutOfMemory, Tree};
use std::alloc::Global;
use std::marker::Model;

/// The book of forty rules. Contracts see it as the number of its judgings so far, which at the
/// greatest `u64` stays.
#[derive(Debug, Drop)]
pub struct Forty {
    calls: u64,
    // Books that stand side by side are counted up by threads of their own, for each rule on each node: so
    // that no two share a line of a processor's cache, which makes them wait for each other.
    apart: [u64; 15],
}

impl Model for Forty {
    ghost use Rattle.std.specs.Prelude.{ℕ};

    ghost Value = { ℕ };

    ghost view = { λ book. book.calls };
}

impl Forty {
    /// A book that has judged nothing yet.
    pub fn new() -> Self
        ensures { result ≡ 0 }
    {
        Forty {
            calls: 0,
            apart: [0; 15],
        }
    }
}

// A count after so many more; at the greatest `u64` it stays.
fn raised(calls: u64, more: usize) -> u64
    ensures { result ≡ raised calls more }
{
    calls.saturating_add(more as u64)
}

// The info at a place, and None past the last.
fn info_at(infos: &[RuleInfo], place: usize) -> Option<RuleInfo>
    ensures { result ≡ slice_get infos.now place }
{
    infos.get(place).copied()
}

impl RuleBook for Forty {
    ghost use Rattle.std.specs.Prelude.{refl};
    ghost use Rattle.std.proofs.Common.{rules};
    ghost use Rattle.rule_core.specs.Books.{book_of};
    ghost use Rattle.rule_core.specs.BookLaws.{said_strange};
    ghost use Rattle.book_forty.specs.Book.{forty};
    ghost use Rattle.book_forty.specs.Local.{forty_local};

    ghost book = { book_of forty };

    ghost calls = { λ calls. calls };

    fn info(&self, place: usize) -> Option<RuleInfo> {
        info_at(infos_forty(), place)
    }

    fn judge(
        &mut self,
        alloc: Global,
        tree: &Tree,
        rule: RuleNo,
        n: NodeId,
    ) -> Result<Option<Verdict>, OutOfMemory> {
        self.calls = next(self.calls);
        said(alloc, tree, rule, n)
    }

    fn judge_page(
        &mut self,
        alloc: Global,
        tree: &Tree,
        rule: RuleNo,
    ) -> Result<Vec<NodeVerdict>, OutOfMemory> {
        self.calls = raised(self.calls, tree.rows().len());
        said_of_page(alloc, tree, rule)
    }

    fn calls(&self) -> u64 {
        self.calls
    }

    ghost orderly = { refl };

    ghost few = { Prim.search rules };

    ghost strange = { said_strange forty };

    ghost local = { forty_local };
}
