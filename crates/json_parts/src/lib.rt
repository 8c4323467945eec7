//! A list of JSON (RFC 8259) whose items are read apart: of an object with one member, a list, as `{"cases":[..]}`.
//!
//! Start with [`cut`], which cuts the text into the texts of the items, without reading any. [`read_part`] reads one of them,
//! so that many can be read at once, each by itself. Where each has a value, the whole is the object of the list of these
//! values, wherever it was cut. An item that is an object of three texts and a value is cut further by [`cut_object`], so that
//! who knows what the value has to be reads it from its text.
#![tactic(auto)]

mod cutting;
mod front;
mod members;
mod part;
mod scan;

pub use cutting::cut;
pub use members::{Keys, Members, cut_object};
pub use part::{is_inner, read_part};
