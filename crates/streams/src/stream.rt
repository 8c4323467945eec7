ghost use Rattle.std.specs.Prelude.{◌≡◌, ◌<◌, ◌≤◌, None, length, IfOk, OnOk, OnErr};
ghost use Rattle.counts.specs.Counts.{next};
ghost use Rattle.streams.specs.Told.{counted};
ghost use Rattle.streams.specs.Streams.{Read, Counts, before_left, left_is};

use crate::failed::Failed;
use crate::sink::Sink;
use crate::source::Source;
use counts::next;
use std::io::{Read, Write};

/// A stream that is read, as standard input.
#[derive(Drop)]
pub struct Reader<R: Read + Drop> {
    stream: R,
    faults: u64,
}

impl<R: Read + Drop> Reader<R> {
    /// A source that has met no fault.
    pub fn new(stream: R) -> Self
        ensures { result ≡ record { stream = stream; faults = 0 } }
    {
        Reader { stream, faults: 0 }
    }
}

impl<R: Read + Drop> Source for Reader<R> {
    ghost told = { λ s. counted s.faults };

    /// A fault raises the count by one, and nothing else raises it.
    fn read(&mut self, buf: &mut [u8]) -> Result<usize, Failed>
        requires { 0 < length buf.old }
        ensures read { Read before_left left_is buf.new None None result }
        ensures within { IfOk result (λ n. n ≤ length buf.old) }
        ensures counts { Counts self.old.faults self.new.faults result }
        ensures fault { OnErr result (self.new.faults ≡ next self.old.faults) }
        ensures no_fault { OnOk result (self.new.faults ≡ self.old.faults) }
    {
        match self.stream.read(buf) {
            Ok(n) => Ok(n),
            Err(_) => {
                self.faults = next(self.faults);
                Err(Failed)
            }
        }
    }
}

/// A stream that is written, as standard output. One that takes no byte has failed.
#[derive(Drop)]
pub struct Writer<W: Write + Drop> {
    stream: W,
    faults: u64,
}

impl<W: Write + Drop> Writer<W> {
    /// A sink that has met no fault.
    pub fn new(stream: W) -> Self
        ensures { result ≡ record { stream = stream; faults = 0 } }
    {
        Writer { stream, faults: 0 }
    }
}

impl<W: Write + Drop> Sink for Writer<W> {
    ghost told = { λ s. record { faults = s.faults; held = None } };

    fn write(&mut self, piece: &[u8]) -> Result<usize, Failed> {
        match self.stream.write(piece) {
            Ok(n) if n > 0 => Ok(n),
            _ => {
                self.faults = next(self.faults);
                Err(Failed)
            }
        }
    }
}
