ghost use Rattle.std.specs.Prelude.{◌≡◌, ◌==◌, ◌-◌, ◌<◌, ◌≤◌, ◌↔◌, if◌then◌else◌, [], length, IsErr, IfOk, IsTrue};
ghost use Rattle.streams.specs.Streams.{Read, Written, Counts};
ghost use Rattle.links.specs.Wires.{unread, left_of, extended, Allows};
ghost use Rattle.links.specs.Memory.{IsUntouchedLink, wire, refuses_read, given, after_read, refuses_write, taken, after_write};

use crate::link::Link;
use counts::{is_named, next};
use std::alloc::Global;
use std::marker::Model;
use streams::{Failed, copy_front};
use texts::{List, OutOfMemory};

/// A link in memory. It takes no memory after it is made.
#[derive(Drop)]
pub struct MemLink {
    bytes: List<u8>,
    at: usize,
    piece: usize,
    written: Vec<u8>,
    room: usize,
    reads: u64,
    fails: List<u64>,
    calls: u64,
    faults: u64,
}

impl Model for MemLink {
    ghost use Rattle.std.specs.Prelude.{◌≤◌, length};
    ghost use Rattle.std.specs.Vec.{vec_len, vec_capacity};
    ghost use Rattle.links.specs.Memory.{LinkState};

    ghost Value = { LinkState };

    ghost view = { λ s. record { brought = s.bytes; at = s.at; piece = s.piece; written = s.written.items; room = s.room; reads = s.reads; fails = s.fails; calls = s.calls; faults = s.faults } };

    ghost invariant = { λ s. (s.at ≤ length s.bytes) × (vec_len s.written ≤ s.room) × (s.room ≤ vec_capacity s.written) };
}

impl MemLink {
    /// A link that gives these bytes, at most `piece` in a read, 1 where `piece` is 0, in at most `reads`
    /// reads, and holds as many written bytes as it has room for, which it takes at once. Its calls are
    /// counted from 1, and those that `fails` names fail.
    #[tactic(auto, using(crate::proofs::Links::untouched))]
    pub fn new(
        alloc: Global,
        bytes: List<u8>,
        piece: usize,
        room: usize,
        reads: u64,
        fails: List<u64>,
    ) -> Result<Self, OutOfMemory>
        ensures untouched { IfOk result IsUntouchedLink }
        ensures made { IfOk result (λ link. link ≡ record { brought = bytes; at = 0; piece = piece; written = []; room = room; reads = reads; fails = fails; calls = 0; faults = 0 }) }
    {
        Ok(MemLink {
            bytes,
            at: 0,
            piece,
            written: Vec::with_capacity(alloc, room)?,
            room,
            reads,
            fails,
            calls: 0,
            faults: 0,
        })
    }

    /// What was written.
    pub fn written(&self) -> &[u8]
        ensures { result.now ≡ self.now.written }
    {
        self.written.as_slice()
    }
}

impl Link for MemLink {
    ghost wire = { wire };

    ghost reads = { λ s. s.reads };

    ghost faults = { λ s. s.faults };

    /// Fails exactly where the list names the call or no read is still allowed, and else gives as many
    /// bytes as it may.
    fn read(&mut self, buf: &mut [u8]) -> Result<usize, Failed>
        requires { 0 < length buf.old }
        ensures read { Read unread left_of buf.new (wire self.old) (wire self.new) result }
        ensures allowed { Allows self.old.reads self.new.reads result }
        ensures within { IfOk result (λ n. n ≤ length buf.old) }
        ensures counts { Counts self.old.faults self.new.faults result }
        ensures fails { IsErr result ↔ IsTrue (refuses_read self.old) }
        ensures gives { IfOk result (λ n. n ≡ given self.old (length buf.old)) }
        ensures after { self.new ≡ after_read self.old (length buf.old) }
    {
        let fails = is_named(self.fails.as_slice(), self.calls);
        self.calls = next(self.calls);
        if fails || self.reads == 0 {
            self.faults = next(self.faults);
            return Err(Failed);
        }
        let n = copy_front(self.bytes.as_slice(), self.at, self.piece, buf);
        self.at += n;
        self.reads = allowed_after(self.reads, n);
        Ok(n)
    }

    /// Fails exactly where the list names the call or no room is left, and else takes as many bytes as
    /// there is room for.
    fn write(&mut self, piece: &[u8]) -> Result<usize, Failed>
        requires { 0 < length piece.now }
        ensures written { Written extended piece.now (wire self.old) (wire self.new) result }
        ensures kept { self.new.reads ≡ self.old.reads }
        ensures some { IfOk result (λ n. 0 < n) }
        ensures within { IfOk result (λ n. n ≤ length piece.now) }
        ensures counts { Counts self.old.faults self.new.faults result }
        ensures fails { IsErr result ↔ IsTrue (refuses_write self.old) }
        ensures takes { IfOk result (λ n. n ≡ taken self.old (length piece.now)) }
        ensures after { self.new ≡ after_write self.old piece.now }
    {
        let fails = is_named(self.fails.as_slice(), self.calls);
        let left = self.room - self.written.len();
        self.calls = next(self.calls);
        if fails || left == 0 {
            self.faults = next(self.faults);
            return Err(Failed);
        }
        let n = piece.len().min(left);
        self.written.extend_from_slice(&piece[..n]).unwrap();
        Ok(n)
    }

    ghost use Rattle.links.specs.Ends.{ends_alike};

    ghost ends_alike = { ends_alike };
}

// How many reads are allowed after one that gave so many bytes.
fn allowed_after(reads: u64, n: usize) -> u64
    requires { 0 < reads }
    ensures { result ≡ reads - (if n == 0 then 0 else 1) }
{
    if n == 0 { reads } else { reads - 1 }
}
