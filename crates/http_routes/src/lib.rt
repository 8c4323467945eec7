//! Which request of the desk a message makes, by its head: its route and its caller. Start with `call_of`; the routes
//! are `table` of `specs/Table.antt`, looked up by the crate `matchit`, and `route_of` of `specs/Calls.antt` has their
//! methods. `RequestFault` is why a message makes no request: the refusals that follow those of its head, and come
//! before those of the machine.
#![tactic(auto)]

mod call;
mod fault;
mod names;
mod part;
mod place;

pub use call::{Call, Route, call_of};
pub use fault::RequestFault;
pub use part::Part;
pub use place::Table;
