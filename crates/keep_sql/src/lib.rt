//! The keeper over a store in SQLite.
//!
//! It tells what the rows of the store tell, once it is prepared; each of its calls is one transaction. Start with
//! [`SqlKeeper::new`] and [`SqlKeeper::prepare`].
#![tactic(auto)]

mod calls;
mod changes;
mod checks;
mod fitting;
mod keeper;
mod known;
mod preparing;
mod reads;
mod writes;

pub use calls::{read_heads, read_judgements, read_outcomes, read_page, read_site};
pub use keeper::{Prepared, SqlKeeper};
