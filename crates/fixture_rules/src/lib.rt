//! Books and judgements for tests. [`Marks`] is a book of rules that find their verdicts written in a page's
//! attributes, and [`judgements`] are those of a table.
#![tactic(auto)]

mod judged;
mod marks;

pub use judged::{Judged, judgements};
pub use marks::Marks;
