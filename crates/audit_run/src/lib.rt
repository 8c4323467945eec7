//! The audit of one page as a run of a program: what it finds, how a run ends by what it has found, and what it writes
//! then. Start with [`audit`]; [`tell`] writes what was found, and gives the status.
#![tactic(auto)]

mod arguments;
mod auditing;
mod fault_lines;
mod found;
mod status;
mod telling;

pub use auditing::{MOST_READ, audit, laws_of_limits};
pub use fault_lines::fault_line;
pub use found::Found;
pub use status::Status;
pub use telling::{status_of, tell};
