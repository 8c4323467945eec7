//! A keeper that passes its calls on to another one, and fails those whose numbers stand in a list.
//!
//! Start with [`FailingKeeper::new`].
#![tactic(auto)]

mod failing;

pub use failing::FailingKeeper;
