ghost use Rattle.std.specs.Prelude.{◌≡◌, ◌≤◌, None};
ghost use Rattle.counts.specs.Counts.{Rose};

use crate::line::Line;
use crate::patience::Patience;
use counts::next;
use links::Link;
use std::net::TcpStream;
use std::time::Clock;
use streams::Failed;

/// How many reads that give bytes a link over TCP allows in all: 2^48.
pub const MOST_READS: u64 = 1 << 48;

/// A connection over TCP, which is closed where it is dropped. It tells no bytes.
#[derive(Drop)]
pub struct TcpLink<C: Clock + Drop> {
    line: Line<C>,
    reads: u64,
    faults: u64,
}

impl<C: Clock + Drop> TcpLink<C> {
    // A link over a stream, of which nothing is read or written yet.
    pub(crate) fn new(stream: TcpStream, clock: C, patience: Patience) -> Self
        ensures reads { result.reads ≡ MOST_READS }
        ensures faults { result.faults ≡ 0 }
    {
        TcpLink {
            line: Line::new(stream, clock, patience),
            reads: MOST_READS,
            faults: 0,
        }
    }

    // Closes it. What the peer still sends is taken for a short while, so that its last reply isn't lost;
    // not so where the link has met a fault.
    pub(crate) fn close(self) {
        if self.faults == 0 {
            self.line.close();
        }
    }

    // Counts a fault.
    fn failed(&mut self) -> Failed
        ensures never_falls { self.old.faults ≤ self.new.faults }
        ensures rose { Rose self.old.faults self.new.faults }
        ensures reads { self.new.reads ≡ self.old.reads }
    {
        self.faults = next(self.faults);
        Failed
    }
}

impl<C: Clock + Drop> Link for TcpLink<C> {
    ghost wire = { λ _. None };

    ghost reads = { λ link. link.reads };

    ghost faults = { λ link. link.faults };

    /// Fails where no read is still allowed, the peer lets it wait too long, or the system says so.
    fn read(&mut self, buf: &mut [u8]) -> Result<usize, Failed> {
        if self.reads == 0 {
            return Err(self.failed());
        }
        match self.line.read(buf) {
            Ok(0) => Ok(0),
            Ok(n) => {
                self.reads -= 1;
                Ok(n)
            }
            Err(_) => Err(self.failed()),
        }
    }

    /// Fails where the peer lets it wait too long, takes nothing, or the system says so.
    fn write(&mut self, piece: &[u8]) -> Result<usize, Failed> {
        match self.line.write(piece) {
            Ok(n) => Ok(n),
            Err(_) => Err(self.failed()),
        }
    }

    ghost use Rattle.tcp_door.specs.Tcp.{ends_alike};

    ghost ends_alike = { λ _. ends_alike };
}
