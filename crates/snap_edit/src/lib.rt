//! Edits of a page: seven kinds, applied one after another, or refused by the first fault with its index.
//!
//! Start with [`apply`]. Contracts say it on the nested tree: `specs/Edits.antt` has one clause for each
//! kind.
#![tactic(auto)]

mod alone;
mod attrs;
mod changes;
mod edit;
mod edits;
mod fault;
mod laws;
mod moves;
mod place;
mod subtree;
mod taken;

pub use edit::{Edit, MOST_EDITS};
pub use edits::apply;
pub use fault::{EditFault, EditKind};
pub use laws::{laws_of_edits, laws_of_limits};
