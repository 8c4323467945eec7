ghost use Rattle.std.specs.Prelude.{◌≡◌, ◌<◌, ◌≤◌, [], length, Some, IsErr, IfOk, OnErr, IsTrue, ◌↔◌};
ghost use Rattle.counts.specs.Counts.{next};
ghost use Rattle.streams.specs.Memory.{held_told, is_refused, taken, after_write};
ghost use Rattle.streams.specs.Streams.{Written, Counts, after_held};

use crate::failed::Failed;
use crate::sink::Sink;
use counts::{is_named, next};
use std::alloc::Global;
use std::marker::Model;
use texts::{List, OutOfMemory};

/// A sink in memory. It takes no memory after it is made.
#[derive(Drop)]
pub struct MemSink {
    bytes: Vec<u8>,
    room: usize,
    fails: List<u64>,
    calls: u64,
    faults: u64,
}

impl Model for MemSink {
    ghost use Rattle.std.specs.Prelude.{◌≤◌};
    ghost use Rattle.std.specs.Vec.{vec_len, vec_capacity};
    ghost use Rattle.streams.specs.Memory.{Held};

    ghost Value = { Held };

    ghost view = { λ s. record { held = s.bytes.items; room = s.room; fails = s.fails; calls = s.calls; faults = s.faults } };

    ghost invariant = { (λ s. (vec_len s.bytes ≤ s.room) × (s.room ≤ vec_capacity s.bytes)) };
}

impl MemSink {
    /// A sink that holds as many bytes as it has room for, which it takes at once. Writes are counted
    /// from 1, and those that `fails` names fail.
    pub fn new(alloc: Global, room: usize, fails: List<u64>) -> Result<Self, OutOfMemory>
        ensures { IfOk result
            (λ s. s ≡ record { held = []; room = room; fails = fails; calls = 0; faults = 0 }) }
    {
        Ok(MemSink {
            bytes: Vec::with_capacity(alloc, room)?,
            room,
            fails,
            calls: 0,
            faults: 0,
        })
    }

    /// What was written.
    pub fn bytes(&self) -> &[u8]
        ensures { result.now ≡ self.now.held }
    {
        self.bytes.as_slice()
    }
}

impl Sink for MemSink {
    ghost told = { held_told };

    /// Fails exactly where the list names the call or no room is left, and else takes as many bytes as
    /// there is room for.
    fn write(&mut self, piece: &[u8]) -> Result<usize, Failed>
        requires { 0 < length piece.now }
        ensures written { Written after_held piece.now (Some self.old.held) (Some self.new.held) result }
        ensures some { IfOk result (λ n. 0 < n) }
        ensures within { IfOk result (λ n. n ≤ length piece.now) }
        ensures counts { Counts self.old.faults self.new.faults result }
        ensures fault { OnErr result (self.new.faults ≡ next self.old.faults) }
        ensures fails { IsErr result ↔ IsTrue (is_refused self.old) }
        ensures takes { IfOk result (λ n. n ≡ taken self.old (length piece.now)) }
        ensures after { self.new ≡ after_write self.old piece.now }
    {
        let fails = is_named(self.fails.as_slice(), self.calls);
        let left = self.room - self.bytes.len();
        self.calls = next(self.calls);
        if fails || left == 0 {
            self.faults = next(self.faults);
            return Err(Failed);
        }
        let n = piece.len().min(left);
        self.bytes.extend_from_slice(&piece[..n]).unwrap();
        Ok(n)
    }
}
