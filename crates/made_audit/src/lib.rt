//! The audit of pages that a number makes, by all books, and the line that it comes to. Start with [`made_line`].
#![tactic(auto)]

mod counted;
mod line;
mod span;
mod sums;
mod workers;

pub use line::made_line;
