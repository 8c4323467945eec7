//! Replies of HTTP/1.1 as bytes (RFC 9112): a body is framed by its status line and its fields, in the memory
//! in which it was printed. Start with `frame`; `push` and `push_number` print without taking memory, as far
//! as there is room.
#![tactic(auto)]

mod framing;
mod kind;
mod pushing;

pub use framing::{MOST_HEAD, MOST_PHRASE, frame};
pub use kind::Kind;
pub use pushing::{MOST_DIGITS, push, push_number};
