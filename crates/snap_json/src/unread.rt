use json::Invalid;
use snap_tree::OutOfMemory;
use std::alloc::{AllocError, AllocFailed};

/// Why a snapshot wasn't read straight from its tokens.
#[derive(Clone, Copy, Debug)]
pub(crate) enum Unread {
    /// Its tokens aren't those that snapshots mostly have. What they are is another question.
    Unusual,
    /// Want of memory.
    OutOfMemory,
}

impl From<Invalid> for Unread {
    fn from(_error: Invalid) -> Self {
        Unread::Unusual
    }
}

impl From<OutOfMemory> for Unread {
    fn from(_error: OutOfMemory) -> Self {
        Unread::OutOfMemory
    }
}

impl From<AllocError> for Unread {
    fn from(_error: AllocError) -> Self {
        Unread::OutOfMemory
    }
}

impl<T: Drop> From<AllocFailed<T>> for Unread {
    fn from(_error: AllocFailed<T>) -> Self {
        Unread::OutOfMemory
    }
}
