//! Plays the cases of a script: talks, runs of the program over sources, sinks and doors in memory, and looks at what is kept.
//!
//! Start with [`case_differs`], which plays a case in each of its ways.
#![tactic(auto)]

mod cases;
mod door_sweep;
mod over_failing;
mod over_store;
mod playing;
mod run_sweep;
mod running;
mod streaming;

pub use cases::case_differs;
