ghost use Rattle.std.specs.Prelude.{◌≡◌, OnOk, OnErr};
ghost use Rattle.streams.specs.Streams.{Wrote, WroteFront, Counts};
ghost use Rattle.links.specs.Wires.{extended};

use crate::link::Link;
use streams::Failed;

/// Writes all the bytes, or a front of them where the link fails. A link that failed isn't written again, so
/// where all is written its count of faults is as it was.
#[tactic(auto, using(crate::proofs::Links::wire_front))]
pub fn write_all<L: Link>(link: &mut L, bytes: &[u8]) -> Result<(), Failed>
    ensures wrote { OnOk result (Wrote extended bytes.now (L.wire link.old) (L.wire link.new)) }
    ensures broke_off { OnErr result (WroteFront extended bytes.now (L.wire link.old) (L.wire link.new)) }
    ensures kept { L.reads link.new ≡ L.reads link.old }
    ensures counts { Counts (L.faults link.old) (L.faults link.new) result }
{
    let mut at = 0;
    while at < bytes.len() {
        let (_, rest) = bytes.split_at(at);
        let n = link.write(rest)?;
        at += n;
    }
    Ok(())
}
