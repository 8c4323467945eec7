ghost use Rattle.std.specs.Prelude.{◌≡◌, OnOk, OnErr};
ghost use Rattle.streams.specs.Streams.{Wrote, WroteFront, Counts};
ghost use Rattle.links.specs.Wires.{extended};
ghost use Rattle.desk_http.specs.Printed.{bytes_of};

use links::{Link, write_all};
use streams::Failed;

// The bytes of an answer: printed, or constant.
#[derive(Drop)]
pub(crate) enum Printed {
    Own(Vec<u8>),
    Constant(&'static [u8]),
}

impl Printed {
    // Writes them.
    pub(crate) fn write<L: Link>(&self, link: &mut L) -> Result<(), Failed>
        ensures wrote { OnOk result (Wrote extended (bytes_of self.now) (L.wire link.old) (L.wire link.new)) }
        ensures broke_off { OnErr result (WroteFront extended (bytes_of self.now) (L.wire link.old) (L.wire link.new)) }
        ensures kept { L.reads link.new ≡ L.reads link.old }
        ensures counts { Counts (L.faults link.old) (L.faults link.new) result }
    {
        match self {
            Printed::Own(bytes) => write_all(link, bytes.as_slice()),
            Printed::Constant(bytes) => write_all(link, bytes),
        }
    }
}
