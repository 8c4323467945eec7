ghost use Rattle.std.specs.Prelude.{◌≡◌, ◌+◌, ◌≤◌, ◌<◌, [], length, take, drop, Some, IsErr, IfOk, IsTrue, ◌↔◌};
ghost use Rattle.counts.specs.Calls.{is_named};
ghost use Rattle.streams.specs.Memory.{gives_of, given_told, given, after_read};
ghost use Rattle.streams.specs.Streams.{Read, Counts, before_left, left_is};

use crate::failed::Failed;
use crate::source::Source;
use counts::{is_named, next};
use std::marker::Model;
use texts::List;

/// A source in memory. It takes no memory after it is made.
#[derive(Drop)]
pub struct MemSource {
    bytes: List<u8>,
    at: usize,
    piece: usize,
    fails: List<u64>,
    calls: u64,
    faults: u64,
}

impl Model for MemSource {
    ghost use Rattle.std.specs.Prelude.{◌≤◌, length, drop};
    ghost use Rattle.streams.specs.Memory.{Given};

    ghost Value = { Given };

    ghost view = { λ s. record { left = drop s.at s.bytes; piece = s.piece; fails = s.fails; calls = s.calls; faults = s.faults } };

    ghost invariant = { λ s. s.at ≤ length s.bytes };
}

impl MemSource {
    /// A source of these bytes that gives at most `piece` of them in a read, 1 where `piece` is 0.
    /// Reads are counted from 1, and those that `fails` names fail.
    pub fn new(bytes: List<u8>, piece: usize, fails: List<u64>) -> Self
        ensures { result ≡ record { left = bytes; piece = piece; fails = fails; calls = 0; faults = 0 } }
    {
        MemSource {
            bytes,
            at: 0,
            piece,
            fails,
            calls: 0,
            faults: 0,
        }
    }
}

impl Source for MemSource {
    ghost told = { given_told };

    /// Fails exactly where the list names the call, and else gives as many bytes as it may.
    fn read(&mut self, buf: &mut [u8]) -> Result<usize, Failed>
        requires { 0 < length buf.old }
        ensures read { Read before_left left_is buf.new (Some self.old.left) (Some self.new.left) result }
        ensures within { IfOk result (λ n. n ≤ length buf.old) }
        ensures counts { Counts self.old.faults self.new.faults result }
        ensures fails { IsErr result ↔ IsTrue (is_named self.old.fails self.old.calls) }
        ensures gives { IfOk result (λ n. n ≡ given self.old (length buf.old)) }
        ensures after { self.new ≡ after_read self.old (length buf.old) }
    {
        let fails = is_named(self.fails.as_slice(), self.calls);
        self.calls = next(self.calls);
        if fails {
            self.faults = next(self.faults);
            return Err(Failed);
        }
        let n = copy_front(self.bytes.as_slice(), self.at, self.piece, buf);
        self.at += n;
        Ok(n)
    }
}

/// Copies into the front of a buffer what stands at a place, at most a piece of it, or 1 byte where that is 0. Gives
/// how many bytes.
pub fn copy_front(bytes: &[u8], at: usize, piece: usize, buf: &mut [u8]) -> usize
    requires { at ≤ length bytes.now }
    ensures count { result ≡ gives_of piece (drop at bytes.now) (length buf.old) }
    ensures copied { take result buf.new ≡ take result (drop at bytes.now) }
    ensures fits { at + result ≤ length bytes.now }
{
    let left = &bytes[at..];
    let n = buf.len().min(piece.max(1)).min(left.len());
    buf[..n].copy_from_slice(&left[..n]);
    n
}
