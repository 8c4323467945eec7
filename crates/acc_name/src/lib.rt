//! The accessible name of each node of a page, and which clause gave it (Accessible Name and Description
//! Computation 1.2).
//!
//! Start with [`name`]. The nine clauses stand in `specs/Names.antt`, and in `docs/use/names.md` with
//! the standard's step beside each; [`laws_of_names`] says each clause in the standard's own shape.
#![tactic(auto)]

mod captions;
mod clauses;
mod following;
mod heard;
mod hosts;
mod laws;
mod local;
mod named;
mod naming;
mod owning;
mod placing;
mod references;
mod room;
mod tags;
mod telling;
mod tidying;
mod told;
mod values;

pub use laws::laws_of_names;
pub use local::law_of_locality;
pub use named::{Name, NameSource};
pub use naming::name;
pub use room::{MOST_NAME_BYTES, MOST_NESTED_BYTES};
