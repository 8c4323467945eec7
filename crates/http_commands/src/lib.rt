//! Which request of the desk a message makes: its command, with all that the path, the head and the body say,
//! and its caller. Start with [`request_of`].
//!
//! What a message asks is one definition, `request_of` of `specs/Requests.antt`, from its head and the bytes
//! of its body. A message that asks nothing is refused by the first fault in the order of
//! [`RequestFault`](http_routes::RequestFault); of several parts that are out of shape the first is told:
//! the revision in the head, the body as a whole, then its members in the order in which the definitions name
//! them.
#![tactic(auto)]

mod claims;
mod command;
mod edits;
mod entries;
mod judging;
mod languages;
mod request;
mod revision;
mod roles;
mod shape;
mod unasked;

pub use request::{Asked, request_of};
