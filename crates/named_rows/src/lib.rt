//! Rows that have a name, kept in byte order of their names: looked up, put, taken out and changed by it.
//! Start with [`Rows`]; [`place_of`] looks a name up in any slice of such rows.
#![tactic(auto)]

mod laws;
mod place;
mod rows;

pub use laws::{laws_of_lookups, laws_of_order, laws_of_views};
pub use place::{Named, Place, place_of};
pub use rows::Rows;
