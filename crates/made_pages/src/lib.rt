//! Large pages that a number makes. Each has 401 parts, of four kinds in turn; the number and that of the page say
//! which kind comes first. Start with [`made_pages`], or with [`made_page`] for the rows of one page.
#![tactic(auto)]

mod kind;
mod node;
mod page;
mod pages;
mod part;

pub use page::{PARTS, laws_of_limits, made_page};
pub use pages::{laws_of_pages, made_pages, made_tree};
