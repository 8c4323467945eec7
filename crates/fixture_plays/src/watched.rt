//! A link that counts its calls which fail.

use counts::next;
use links::{Link, MemLink};
use streams::Failed;

/// A link in memory, and how many of its reads and of its writes failed.
#[derive(Drop)]
pub struct Watched {
    link: MemLink,
    failed_reads: u64,
    failed_writes: u64,
}

impl Watched {
    pub fn over(link: MemLink) -> Self {
        Watched {
            link,
            failed_reads: 0,
            failed_writes: 0,
        }
    }

    /// How many of its reads and of its writes failed.
    pub fn faults(&self) -> (u64, u64) {
        (self.failed_reads, self.failed_writes)
    }

    /// What was written.
    pub fn written(&self) -> &[u8] {
        self.link.written()
    }
}

impl Link for Watched {
    ghost use Rattle.links.specs.Memory.{wire};
    ghost use Rattle.links.specs.Ends.{ends_alike};

    ghost wire = { λ w. wire w.link };

    ghost reads = { λ w. w.link.reads };

    ghost faults = { λ w. w.link.faults };

    fn read(&mut self, buf: &mut [u8]) -> Result<usize, Failed> {
        let read = self.link.read(buf);
        if read.is_err() {
            self.failed_reads = next(self.failed_reads);
        }
        read
    }

    fn write(&mut self, piece: &[u8]) -> Result<usize, Failed> {
        let written = self.link.write(piece);
        if written.is_err() {
            self.failed_writes = next(self.failed_writes);
        }
        written
    }

    ghost ends_alike = { λ w. ends_alike w.link };
}
