//! What a script says, once it is read: its steps, which are talks over connections, runs of the program and looks at what is
//! kept, its cases, and how each is played.
//!
//! Start with [`Reader`]; [`Script`] is what it reads, and [`talk_differs`] compares a talk with what came back. The lines of
//! a script are told in `crates/test_scripts/data/README`.
#![tactic(auto)]

mod about;
mod context;
mod message;
mod reader;
mod run;
mod script;
mod setting;
mod settings;
mod steps;
mod talk;
mod told;

pub use reader::Reader;
pub use run::{Run, Sink};
pub use script::{Case, Judged, Kept, Plot, Prepares, Reads, Script, Step};
pub use setting::{Book, Kind, Setting, Store, Sweep, Ways};
pub use talk::{End, Judgings, Talk, talk_differs};
pub use told::Told;
