use snap_tree::OutOfMemory;
use sqlite::{Error, ErrorCode};
use std::alloc::{AllocError, AllocFailed};

/// Why a store gave no answer.
#[derive(Clone, Copy, Debug, PartialEq, Eq)]
pub enum StoreFault {
    /// A statement was refused for another cause than memory, or a row doesn't read.
    Failed,
    OutOfMemory,
}

impl From<Error> for StoreFault {
    fn from(error: Error) -> Self {
        if error == Error::SqliteFailure(ErrorCode::OutOfMemory) {
            StoreFault::OutOfMemory
        } else {
            StoreFault::Failed
        }
    }
}

impl From<OutOfMemory> for StoreFault {
    fn from(_error: OutOfMemory) -> Self {
        StoreFault::OutOfMemory
    }
}

impl From<AllocError> for StoreFault {
    fn from(_error: AllocError) -> Self {
        StoreFault::OutOfMemory
    }
}

impl<T: Drop> From<AllocFailed<T>> for StoreFault {
    fn from(_error: AllocFailed<T>) -> Self {
        StoreFault::OutOfMemory
    }
}
