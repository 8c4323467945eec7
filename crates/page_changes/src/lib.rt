//! Which nodes an edit reaches: for each node of the old page and each class of rules, whether the old and the new page
//! agree on all that the class looks at. Start with [`changes`].
#![tactic(auto)]

mod beside;
mod by_number;
mod flags;
mod labels;
mod looked;
mod marks;
mod met;
mod pages;
mod references;
mod same;
mod tags;

pub use flags::{Flags, changes};
