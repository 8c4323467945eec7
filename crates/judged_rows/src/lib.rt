//! The rows of a page's outcomes, and how they are put together: the row of a verdict under judgements, a row under
//! other judgements, the rows of a composite rule by those of its inputs, and the rows of all rules one after another.
//! Start with [`row_of`] and [`joined_parts`].
#![tactic(auto)]

mod composite;
mod finals;
mod leading;
mod on_node;
mod parts;
mod rows;

pub use leading::{after, head_on, split_rule};
pub use on_node::{ByNode, by_node};
pub use parts::{RulePart, atomic_part, composite_part, joined_parts};
pub use rows::{push_row, row_again, row_of};
