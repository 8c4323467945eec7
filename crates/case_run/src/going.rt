//! Cases that are done with.

ghost use Rattle.std.specs.Thread.{IsSync};

use crate::case::Case;
use audit::share;
use snap_tree::List;
use std::thread::{Threads, join};

/// Gives back the memory of cases. At most so many threads do, each that of its share.
pub fn let_go<R: Threads + Sync>(rt: &R, threads: usize, cases: List<Case>) {
    go(rt, threads, cases.into_vec());
}

#[cycle(sharing)]
fn go<R: Threads + Sync>(rt: &R, threads: usize, mut cases: Vec<Case>) {
    if threads < 2 {
        return;
    }
    let rest = threads - 1;
    if let Ok(others) = cases.split_off(share(cases.len(), threads)) {
        let first = move || drop(cases);
        let later = move ||
            requires { IsSync R.row }
        { go(rt, rest, others) };
        join(rt, first, later);
    }
}
