//! Stores in memory, for tests of what is kept in them. Start with [`ready_keeper`], or with [`waiting_keeper`] where
//! it isn't to be prepared yet.
#![tactic(auto)]

mod stores;

pub use stores::{MemStore, ready_keeper, waiting_keeper};
