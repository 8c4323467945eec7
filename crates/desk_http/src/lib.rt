//! The desk over HTTP: messages come over a link, and each is answered as the machine says, one after the
//! other. Start with `serve`, which takes the links of a door, or with `serve_link`.
#![tactic(auto)]

mod answering;
mod laws;
mod link_end;
mod printed;
mod serving;

pub use laws::laws_of_items;
pub use link_end::LinkEnd;
pub use serving::{serve, serve_link};
