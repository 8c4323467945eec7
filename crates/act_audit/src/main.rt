//! The audit of one page, as a program of its own: `act_audit < SNAPSHOT`. It does what `act_desk - audit` does, stands on
//! no store and no HTTP, and so is built in less time. The adapters over standard input, output and error are the trusted
//! edge.
#![tactic(auto)]

use audit_run::{Found, audit, tell};
use rule_book::Thirty;
use std::env::FillError;
use std::process::ExitCode;
use std::rt::Env;
use streams::{Reader, Writer};

fn main(rt: HostRuntime) -> ExitCode {
    let mut out = Writer::new(rt.stdout());
    let mut err = Writer::new(rt.stderr());
    let mut input = Reader::new(rt.stdin());
    let found = match rt.arg(1, &mut [0]) {
        Err(FillError::NotPresent) => audit(rt.alloc(), &mut input, &mut Thirty::new()),
        _ => Found::Usage,
    };
    ExitCode::from(tell(&mut out, &mut err, &found).number())
}
