ghost use Rattle.std.specs.Prelude.{◌≡◌};
ghost use Rattle.earl_in.specs.declared.claim.EarlFault.TheVariants.{OutOfMemory as Unread};

use rule_core::{Auto, RuleNo};
use snap_tree::{NodeId, OutOfMemory, Text};
use std::alloc::{AllocError, AllocFailed};

/// What an entry claims: a person's verdict by a rule on a node of a page.
#[derive(Debug, Drop, PartialEq, Eq)]
pub struct Claim {
    /// The address of the page.
    pub subject: Text,
    /// An atomic rule.
    pub rule: RuleNo,
    pub node: NodeId,
    pub verdict: Auto,
    /// The SHA-256 digest of the evidence that the person saw.
    pub digest: [u8; 32],
    pub note: Text,
}

/// Why a value wasn't read as EARL.
#[derive(Clone, Copy, Debug, PartialEq, Eq, Hash)]
pub enum EarlFault {
    /// It is no object.
    Body,
    /// Its member `@graph` isn't a list of at most 10,000 entries.
    Graph,
    /// Want of memory, which is no fault of the value.
    OutOfMemory,
}

impl From<OutOfMemory> for EarlFault {
    ghost from_gives = { λ _ e. e ≡ Unread };

    fn from(_error: OutOfMemory) -> Self {
        EarlFault::OutOfMemory
    }
}

impl From<AllocError> for EarlFault {
    ghost from_gives = { λ _ e. e ≡ Unread };

    fn from(_error: AllocError) -> Self {
        EarlFault::OutOfMemory
    }
}

impl<T: Drop> From<AllocFailed<T>> for EarlFault {
    ghost from_gives = { λ _ e. e ≡ Unread };

    fn from(_error: AllocFailed<T>) -> Self {
        EarlFault::OutOfMemory
    }
}
