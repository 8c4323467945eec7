//! Values by number, as the nodes of a page have numbers that are mostly small. Start with [`NumberTable`].
#![tactic(auto)]

mod table;

pub use table::NumberTable;
