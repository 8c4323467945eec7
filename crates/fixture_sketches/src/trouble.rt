use snap_edit::EditFault;
use snap_tree::{BuildFault, OutOfMemory};
use std::alloc::{AllocError, AllocFailed};

/// Why a line of a case can't be followed.
#[derive(Clone, Copy, Debug, PartialEq, Eq)]
pub enum Trouble {
    /// It isn't in the words that the guide to pages lists.
    NotInForm,
    /// There is no page before it, or the page is refused.
    NoPage,
    OutOfMemory,
}

impl Trouble {
    /// What is said in place of an answer.
    pub fn said(self) -> &'static str {
        match self {
            Trouble::NotInForm => "a line that isn't in the form",
            Trouble::NoPage => "no page",
            Trouble::OutOfMemory => "out of memory",
        }
    }
}

impl From<OutOfMemory> for Trouble {
    fn from(_error: OutOfMemory) -> Self {
        Trouble::OutOfMemory
    }
}

impl From<AllocError> for Trouble {
    fn from(_error: AllocError) -> Self {
        Trouble::OutOfMemory
    }
}

impl<T: Drop> From<AllocFailed<T>> for Trouble {
    fn from(_error: AllocFailed<T>) -> Self {
        Trouble::OutOfMemory
    }
}
