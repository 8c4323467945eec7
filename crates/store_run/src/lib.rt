//! A run over a store: `run_store` prepares the store and then does what `run` does, or tells why it can't, and `run_file`
//! opens a file for it. Start with [`run_store`].
#![tactic(auto)]

mod opening;
mod refusal;
mod running;

pub use opening::run_file;
pub use refusal::{StoreRefusal, refuse};
pub use running::run_store;
