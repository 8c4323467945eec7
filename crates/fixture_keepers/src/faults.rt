//! Faults of keepers and stores, of which a script knows no more than that there is one.

use fixture_talks::Wrong;
use keep_core::KeepFault;
use store_tables::StoreFault;

pub(crate) fn wrong_of(fault: KeepFault) -> Wrong {
    match fault {
        KeepFault::Failed => Wrong::Keeper,
        KeepFault::OutOfMemory => Wrong::NoMemory,
    }
}

pub(crate) fn wrong_of_store(fault: StoreFault) -> Wrong {
    match fault {
        StoreFault::Failed => Wrong::Keeper,
        StoreFault::OutOfMemory => Wrong::NoMemory,
    }
}
