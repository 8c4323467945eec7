//! The replies of the desk over HTTP, as bytes: what is sent back for each refusal and each reply of the
//! machine. Start with `print`. The reply to a change is printed without taking memory, where room was taken
//! before the change was made; `no_memory` answers where there is none.
#![tactic(auto)]

mod answer;
mod constant;
mod made;
mod member_list;
mod members;
mod names;
mod outcomes;
mod page;
mod printing;
mod refusals;
mod verdict_list;
mod words;

pub use answer::Answer;
pub use constant::no_memory;
pub use made::is_made;
pub use printing::{MOST_REPLY, laws_of_limits, print};
