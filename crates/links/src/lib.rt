//! The outside of a server: links, over which bytes come and go, and doors, through which links come.
//! Each counts its faults: a call fails only where it counted one, and one that doesn't fail counts none. Start
//! with `Link`;
//! `MemLink` and `MemDoor` are the ones in memory, whose contracts are exact.
#![tactic(auto)]

mod door;
mod link;
mod mem_door;
mod mem_link;
mod writing;

pub use door::{Door, Heard};
pub use link::Link;
pub use mem_door::MemDoor;
pub use mem_link::MemLink;
pub use writing::write_all;
