//! The book of forty: the book of thirty of `rule_book`, and the ten further rules of `rules_more` behind it, in the order
//! of their numbers. Start with [`Forty`], or with [`infos_forty`] for what the rules say of themselves.
#![tactic(auto)]

mod forty;
mod table;

pub use forty::Forty;
pub use table::infos_forty;
