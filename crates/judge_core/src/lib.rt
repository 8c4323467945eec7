//! What an audit of a page comes to (ACT Rules Format 1.1): judgements of people, final outcomes,
//! composite rules, and the outcomes of a page by the rules of a book.
//! Start with `final_outcome`.
#![tactic(auto)]

mod composite;
mod copies;
mod evidence;
mod finals;
mod infos;
mod judgement;
mod laws;
mod outcomes;

pub use composite::merge_composite;
pub use evidence::evidence_digest;
pub use finals::final_outcome;
pub use infos::infos_of;
pub use judgement::Judgement;
pub use laws::{laws_of_equality, laws_of_judgements, laws_of_merging};
pub use outcomes::{Final, OutRow, Outcomes};
