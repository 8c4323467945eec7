ghost use Rattle.std.specs.Prelude.{◌≡◌, IfOk, IsOkAnd};
ghost use Rattle.made_audit.specs.Line.{both};

use reports::Sums;
use snap_tree::OutOfMemory;

/// What pages come to: how many nodes they have, and the sums of their outcomes.
#[derive(Clone, Copy, Debug, PartialEq, Eq)]
pub struct Counted {
    pub nodes: u64,
    pub sums: Sums,
}

impl Counted {
    /// What no pages come to.
    pub fn none() -> Counted
        ensures { result ≡ record {
          nodes = 0;
          sums = record { passed = 0; failed = 0; cant_tell = 0; inapplicable = 0 };
        } }
    {
        Counted {
            nodes: 0,
            sums: Sums::none(),
        }
    }

    /// These pages and others together; each sum stops at the greatest number.
    pub fn and(self, others: Counted) -> Counted
        ensures { result ≡ both self others }
    {
        Counted {
            nodes: self.nodes.saturating_add(others.nodes),
            sums: self.sums.and(others.sums),
        }
    }
}

/// Two parts of the pages together, where both were counted.
pub fn joined(
    first: Result<Counted, OutOfMemory>,
    later: Result<Counted, OutOfMemory>,
) -> Result<Counted, OutOfMemory>
    ensures { IfOk result (λ all. IsOkAnd first (λ a. IsOkAnd later (λ b. all ≡ both a b))) }
{
    let first = first?;
    let later = later?;
    Ok(first.and(later))
}
