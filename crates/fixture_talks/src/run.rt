//! Runs of the program.

use crate::talk::{Judgings, Talk};
use std::alloc::Global;

/// A sink of a run: how many bytes it has room for, its calls that fail, and what it must have in the end.
#[derive(Drop)]
pub struct Sink {
    pub room: u64,
    pub fails: Vec<u64>,
    pub due: Vec<u8>,
}

impl Sink {
    fn new(alloc: Global) -> Self {
        Sink {
            room: 65_536,
            fails: Vec::new(alloc),
            due: Vec::new(alloc),
        }
    }
}

/// A run of the program: its words and streams, what comes over its door, and how it ends.
#[derive(Drop)]
pub struct Run {
    pub line: u64,
    pub words: Vec<String>,
    pub input: Vec<u8>,
    pub input_fails: Vec<u64>,
    pub out: Sink,
    pub err: Sink,
    pub door_fails: Vec<u64>,
    pub talks: Vec<Talk>,
    pub status: u64,
    pub judgings: Option<Judgings>,
}

impl Run {
    pub fn new(alloc: Global, line: u64, words: Vec<String>) -> Self {
        Run {
            line,
            words,
            input: Vec::new(alloc),
            input_fails: Vec::new(alloc),
            out: Sink::new(alloc),
            err: Sink::new(alloc),
            door_fails: Vec::new(alloc),
            talks: Vec::new(alloc),
            status: 0,
            judgings: None,
        }
    }
}
