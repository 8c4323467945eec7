//! Says what is looked up in a page, in bytes, in texts and in ARIA's tables, as lines that a case is held against.
//!
//! Start with [`looked_up`].
#![tactic(auto)]

mod aria;
mod looks;
mod names;
mod snapshots;
mod values;

pub use aria::from_table;
pub use looks::{cells, looked_up, page_lines};
pub use snapshots::read;
pub use values::{address, digits, faulty_lang, first_word, made, tidied, words_of};
