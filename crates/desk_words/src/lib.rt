//! The words of the desk's commands, as the crate `clap` reads them. Start with `command_in`.
#![tactic(auto)]

mod command;
mod parsing;
mod reading;
mod rules;
mod words;

pub use command::{
    Generating, MOST_CONNECTIONS, MOST_MADE, MOST_NUMBER, ProgramCommand, Serving, Showing,
    SiteForm, laws_of_limits,
};
pub use words::command_in;
