//! The book of all rules, in the order of their numbers: the atomic ones, which `rules_page`, `rules_bypass`,
//! `rules_names`, `rules_aria` and `rules_tables` restate, and a composite one over those of `rules_bypass`. Start with
//! [`Thirty`], or with [`infos`] for what the rules say of themselves.
#![tactic(auto)]

mod table;
mod thirty;

pub use table::{BLOCKS_CAN_BE_BYPASSED, composites, infos, said, said_of_page};
pub use thirty::Thirty;
