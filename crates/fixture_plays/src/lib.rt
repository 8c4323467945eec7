//! Plays what is said over connections in a script, over a keeper and by books of either kind.
//!
//! Start with [`Play`], which asks what a talk asks and compares what comes back. [`sweep_keeper`], [`sweep_link`] and
//! [`sweep_cuts`] play the talks of a case once for each call that may fail.
#![tactic(auto)]

mod keeper_sweep;
mod link_sweep;
mod looks;
mod playing;
mod states;
mod watched;

pub use keeper_sweep::sweep_keeper;
pub use link_sweep::{sweep_cuts, sweep_link};
pub use looks::look_differs;
pub use playing::{Answer, Play, Way, link_of};
pub use states::{Swept, kept_now, swept_states};
