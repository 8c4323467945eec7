//! Links and a door over the sockets of TCP, at the machine's own address 127.0.0.1. Start with `TcpDoor`.
//!
//! This is the edge of what is proved. Proved is what `links` asks of each link and door: counts of
//! faults, reads and connections, and that each `Failed` comes with a fault that was counted. That the
//! bytes which a read gives are those that the peer sent, that those which a write takes reach it, and
//! how long a call waits is the system's and the toolchain's to keep: their statements about sockets and
//! clocks give counts alone.
#![tactic(auto)]

mod door;
mod line;
mod link;
mod patience;

pub use door::TcpDoor;
pub use link::{MOST_READS, TcpLink};
pub use patience::Patience;
