//! The judgements of a page as people are shown them: each with whether it counts. Start with [`verdicts_of`].
#![tactic(auto)]

mod counting;
mod marks;
mod places;
mod verdicts;

pub use verdicts::{KeptVerdict, verdicts_of};
