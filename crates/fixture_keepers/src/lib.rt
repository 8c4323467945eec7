//! What keeps and what judges while a script is played: keepers in memory and over stores, of which calls fail, and books that
//! are made anew.
//!
//! Start with [`memory_keeper`] and [`store_keeper`]; [`kept_lines`] says in lines what a keeper keeps of a site.
#![tactic(auto)]

mod books;
mod faults;
mod keepers;
mod kept;

pub use books::{Made, calls_of, made_books};
pub use keepers::{
    FailingMemory, FailingStore, Played, failing_store_keeper, memory_keeper, store_keeper,
};
pub use kept::{failing_reads, judgements_of, kept_edition, kept_lines};
