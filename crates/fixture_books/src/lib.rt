//! Two books of rules that meet: each raises a flag of its own when it judges, and looks for the other's, so
//! both find one where two workers are at work at once. Start with [`meeting_books`].
#![tactic(auto)]

mod meeting;

pub use meeting::{Meeting, meeting_books};
