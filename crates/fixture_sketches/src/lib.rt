//! Reads pages that are written as text, with their cases, steps and edits, and writes rows as such lines.
//!
//! Start with [`steps_of`] for the lines of a case, with [`Sketch`] for a page, with [`edits_of`] for edits, and with
//! [`Tally`] for what holds.
#![tactic(auto)]

mod edits;
mod lines;
mod shown;
mod sketch;
mod tally;
mod trouble;
mod words;

pub use edits::edits_of;
pub use lines::{Line, Step, steps_of};
pub use shown::{line_of, lines_of, number_of};
pub use sketch::{Sketch, facts};
pub use tally::{Spot, Tally};
pub use trouble::Trouble;
pub use words::{
    count, cut, cut_quoted, number, push_number, push_quoted, push_word, quoted, unescaped,
    unquoted,
};
