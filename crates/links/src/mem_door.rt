ghost use Rattle.std.specs.Prelude.{◌≡◌, ◌<◌, ◌↔◌, [], Some, None, IsErr, IfOk, IfSome, IsTrue};
ghost use Rattle.std.specs.List.{AllByRecursion};
ghost use Rattle.streams.specs.Streams.{Counts};
ghost use Rattle.links.specs.Doors.{Listens, Gives, TookBack, KeepsLog, Logs};
ghost use Rattle.counts.specs.Calls.{is_named};
ghost use Rattle.links.specs.Memory.{allowed, doorway, IsUntouchedLink, after_listen, refuses_next, next_link, after_next, after_done};

use crate::door::{Door, Heard};
use crate::mem_link::MemLink;
use counts::{is_named, next};
use std::alloc::Global;
use std::marker::Model;
use std::vec::IntoIter;
use streams::Failed;
use texts::{List, OutOfMemory};

/// A door in memory, with its log. It takes no memory after it is made.
#[derive(Drop)]
pub struct MemDoor {
    links: IntoIter<MemLink>,
    log: Vec<MemLink>,
    heard: Option<Heard>,
    given: u64,
    out: usize,
    fails: List<u64>,
    calls: u64,
    faults: u64,
}

impl Model for MemDoor {
    ghost use Rattle.std.specs.Prelude.{◌+◌, ◌≤◌};
    ghost use Rattle.std.specs.List.{AllByRecursion};
    ghost use Rattle.std.specs.Vec.{vec_len, vec_capacity};
    ghost use Rattle.std.specs.Vec.Iter.{into_iter_items, into_iter_len};
    ghost use Rattle.links.specs.Memory.{DoorState, IsUntouchedLink};

    ghost Value = { DoorState };

    ghost view = { λ d. record { links = into_iter_items d.links; log = d.log.items; heard = d.heard; given = d.given; out = d.out; fails = d.fails; calls = d.calls; faults = d.faults } };

    ghost invariant = { λ d. AllByRecursion IsUntouchedLink (into_iter_items d.links) × (into_iter_len d.links + (d.out + vec_len d.log) ≤ vec_capacity d.log) };
}

impl MemDoor {
    /// A door that gives these links, of which nothing is read or written yet and no fault was met, and
    /// takes the room of its log at once. Its calls of `listen` and `next` are counted from 1, and those
    /// that `fails` names fail.
    pub fn new(alloc: Global, links: List<MemLink>, fails: List<u64>) -> Result<Self, OutOfMemory>
        requires { AllByRecursion IsUntouchedLink links }
        ensures { IfOk result (λ door. door ≡ record { links = links; log = []; heard = None; given = 0; out = 0; fails = fails; calls = 0; faults = 0 }) }
    {
        let links = links.into_vec();
        let log = Vec::with_capacity(alloc, links.len())?;
        Ok(MemDoor {
            links: links.into_iter(),
            log,
            heard: None,
            given: 0,
            out: 0,
            fails,
            calls: 0,
            faults: 0,
        })
    }

    /// The links that `done` got, in order.
    pub fn log(&self) -> &[MemLink]
        ensures { result.now ≡ self.now.log }
    {
        self.log.as_slice()
    }
}

impl Door for MemDoor {
    type Conn = MemLink;

    ghost told = { doorway };

    ghost log = { λ d. Some d.log };

    /// Fails exactly where the list names the call.
    fn listen(&mut self, port: u16, count: u64) -> Result<(), Failed>
        requires { (doorway self.old).heard ≡ None }
        ensures listens { Listens (record { port = port; count = count }) (doorway self.old) (doorway self.new) result }
        ensures log { KeepsLog (Some self.old.log) (Some self.new.log) }
        ensures counts { Counts self.old.faults self.new.faults result }
        ensures fails { IsErr result ↔ IsTrue (is_named self.old.fails self.old.calls) }
        ensures after { self.new ≡ after_listen self.old (record { port = port; count = count }) }
    {
        let fails = is_named(self.fails.as_slice(), self.calls);
        self.calls = next(self.calls);
        if fails {
            self.faults = next(self.faults);
            return Err(Failed);
        }
        self.heard = Some(Heard { port, count });
        self.given = 0;
        Ok(())
    }

    /// Fails exactly where the list names the call, or no link is left though a connection is allowed.
    fn next(&mut self) -> Result<Option<MemLink>, Failed>
        ensures gives { Gives (doorway self.old) (doorway self.new) result }
        ensures untouched { IfOk result (λ given. IfSome given IsUntouchedLink) }
        ensures log { KeepsLog (Some self.old.log) (Some self.new.log) }
        ensures counts { Counts self.old.faults self.new.faults result }
        ensures fails { IsErr result ↔ IsTrue (refuses_next self.old) }
        ensures link { IfOk result (λ given. given ≡ next_link self.old) }
        ensures after { self.new ≡ after_next self.old }
    {
        let fails = is_named(self.fails.as_slice(), self.calls);
        self.calls = next(self.calls);
        if fails {
            self.faults = next(self.faults);
            return Err(Failed);
        }
        if allowed(self.heard, self.given) == 0 {
            return Ok(None);
        }
        match self.links.next() {
            Some(link) => {
                self.given += 1;
                self.out += 1;
                Ok(Some(link))
            }
            None => {
                self.faults = next(self.faults);
                Err(Failed)
            }
        }
    }

    fn done(&mut self, link: MemLink)
        requires { 0 < (doorway self.old).out }
        ensures took { TookBack (doorway self.old) (doorway self.new) }
        ensures log { Logs link (Some self.old.log) (Some self.new.log) }
        ensures after { self.new ≡ after_done self.old link }
    {
        self.out -= 1;
        self.log.push(link).unwrap();
    }

    ghost use Rattle.links.specs.Memory.{none_unheard};

    ghost unheard = { none_unheard };
}

// How many connections are still allowed: none before it listens.
fn allowed(heard: Option<Heard>, given: u64) -> u64
    ensures { result ≡ allowed heard given }
{
    match heard {
        Some(heard) => heard.count.saturating_sub(given),
        None => 0,
    }
}
