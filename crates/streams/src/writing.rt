ghost use Rattle.std.specs.Prelude.{OnOk, OnErr};
ghost use Rattle.streams.specs.Streams.{Took, BrokeOff, Counts};

use crate::failed::Failed;
use crate::sink::Sink;

/// Writes all the bytes, or a front of them where the sink fails. A sink that failed isn't written
/// again: its count rises by at most one.
#[tactic(auto, using(crate::proofs::Known::broke_off))]
pub fn write_all<O: Sink>(out: &mut O, bytes: &[u8]) -> Result<(), Failed>
    ensures took { OnOk result (Took (O.told out.old) (O.told out.new) bytes.now) }
    ensures broke_off { OnErr result (BrokeOff (O.told out.old) (O.told out.new) bytes.now) }
    ensures counts { Counts (O.told out.old).faults (O.told out.new).faults result }
{
    let mut at = 0;
    while at < bytes.len() {
        let (_, rest) = bytes.split_at(at);
        let n = out.write(rest)?;
        at += n;
    }
    Ok(())
}
