//! The words, escapes and messages that the lines of a script are made of, and differences between what is due and what came.
//!
//! A script is a conversation with the desk in a text file. Start with [`first_word`] and [`filled`] for its lines, with
//! [`request_bytes`] and [`reply_bytes`] for its messages, and with [`bytes_differ`] for what comes back.
#![tactic(auto)]

mod difference;
mod escapes;
mod messages;
mod names;
mod parts;
mod wording;
mod wrong;

pub use difference::{Difference, bytes_differ, same_front};
pub use escapes::{shown, unescaped};
pub use messages::{reply_begins, reply_bytes, request_bytes};
pub use names::{Named, filled, listed, repeated};
pub use parts::{Parts, parts_of, value_of};
pub use wording::{first_word, number, numbers, words};
pub use wrong::Wrong;
