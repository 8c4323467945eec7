//! Requests of HTTP/1.1 as they come over a connection (RFC 9112): what the bytes of a connection say, and
//! how they are read in pieces of any size. Start with `read_item`.
#![tactic(auto)]

mod blocks;
mod fault;
mod framing;
mod head;
mod item;
mod laws;
mod message;
mod parse;
mod reading;

pub use blocks::MOST_HEAD;
pub use fault::HeadFault;
pub use framing::{MOST_BODY, body_length, number_of};
pub use head::{Field, Head, Version};
pub use item::{Item, Message, Sent};
pub use laws::{laws_of_limits, laws_of_talk};
pub use parse::{MOST_FIELDS, read_head};
pub use reading::{Got, ReadFault, read_item};
