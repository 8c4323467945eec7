ghost use Rattle.std.specs.Prelude.{◌≡◌};
ghost use Rattle.desk_core.specs.declared.refusal.Refusal.{Refusal};
ghost use Rattle.desk_core.specs.declared.refusal.Refusal.TheVariants.{OutOfMemory};
ghost use Rattle.desk_core.specs.Refusals.{of_keep_fault};

use keep_core::KeepFault;
use rule_core::Auto;
use snap_edit::EditKind;
use snap_tree::{Text, TreeFault};
use std::alloc::{AllocError, AllocFailed};

/// Whose leave a request needs.
#[derive(Clone, Copy, Debug, PartialEq, Eq)]
pub enum Needed {
    Owner,
    /// An owner sets the roles of others, and another owner this one's.
    AnotherOwner,
    Editor,
    Judge,
    Reader,
}

/// What would pass its limit.
#[derive(Clone, Copy, Debug, PartialEq, Eq)]
pub enum Limit {
    Pages,
    Revisions,
}

/// Why a request isn't accepted: the first reason in this order.
#[derive(Debug, Drop, PartialEq, Eq)]
pub enum Refusal {
    /// The site isn't kept.
    NoSite,
    /// The site that is to be made is kept.
    SiteExists,
    /// The caller isn't allowed to: who is.
    NotAllowed {
        needed: Needed,
    },
    /// The page isn't kept.
    NoPage,
    /// The site would hold more than 500 pages, or its counter would pass the greatest revision.
    PageLimit {
        limit: Limit,
    },
    /// The revision sent isn't the page's current one, 0 for none. In an import the page's name comes
    /// with it, here and below.
    StaleRevision {
        current: u64,
        page: Option<Text>,
    },
    /// The rows sent make no tree: their first fault.
    TreeFault {
        fault: TreeFault,
        page: Option<Text>,
    },
    /// The edit of this index, counted from 0, can't be carried out.
    EditFault {
        index: u32,
        kind: EditKind,
    },
    /// The page has no outcome of the rule on the node.
    NoTarget,
    /// The outcome isn't a judge's to give: it was found automatically.
    NotOpen {
        automatic: Auto,
    },
    /// The caller sent the page's current revision, and can't judge it.
    SameHand,
    /// The digest sent isn't that of the outcome's evidence.
    EvidenceMoved {
        current: [u8; 32],
    },
    /// The keeper met a fault in this request.
    KeeperFault,
    OutOfMemory,
}

impl From<KeepFault> for Refusal {
    ghost from_gives = { λ fault r. r ≡ of_keep_fault fault };

    fn from(fault: KeepFault) -> Self {
        match fault {
            KeepFault::Failed => Refusal::KeeperFault,
            KeepFault::OutOfMemory => Refusal::OutOfMemory,
        }
    }
}

impl From<snap_tree::OutOfMemory> for Refusal {
    ghost from_gives = { λ _ r. r ≡ OutOfMemory };

    fn from(_error: snap_tree::OutOfMemory) -> Self {
        Refusal::OutOfMemory
    }
}

impl From<AllocError> for Refusal {
    ghost from_gives = { λ _ r. r ≡ OutOfMemory };

    fn from(_error: AllocError) -> Self {
        Refusal::OutOfMemory
    }
}

impl<T: Drop> From<AllocFailed<T>> for Refusal {
    ghost from_gives = { λ _ r. r ≡ OutOfMemory };

    fn from(_error: AllocFailed<T>) -> Self {
        Refusal::OutOfMemory
    }
}
