//! Plays scripts: each is a conversation with the desk, in a text file that people read and write, with the replies that must
//! come. `data/README` says what a script is. It plays the scripts that its arguments name, and without any those of the
//! file `scripts`; it prints a line for each case that doesn't hold, and at the end how many do.
#![tactic(auto)]

mod printing;

use printing::{Count, play_file, play_list};
use std::{env, fs, io};

fn main(rt: HostRuntime) -> io::Result<()> {
    let shared = fs::read_to_string(&rt, "shared")?;
    let mut count = Count {
        passed: 0,
        failed: 0,
    };
    let mut has_names = false;
    for name in env::args(&rt)?.skip(1) {
        has_names = true;
        play_file(&rt, shared.as_str(), name.as_str(), &mut count)?;
    }
    if !has_names {
        play_list(&rt, shared.as_str(), &mut count)?;
    }
    let Count { passed, failed } = count;
    println!(rt; "{passed} passed, {failed} failed")
}
