ghost use Rattle.std.specs.Prelude.{◌≡◌, ◌≤◌, Err, IfOk, vec_len};
ghost use Rattle.counts.specs.Counts.{Rose};
ghost use Rattle.streams.specs.Streams.{IsReadTo, ReadsAtMost};
ghost use Rattle.streams.specs.declared.reading.ReadFault.TheVariants as ReadFault;

use crate::source::Source;
use std::alloc::{AllocError, Global};

// The most bytes that one read asks for.
const PIECE: usize = 65_536;

/// Why a source couldn't be read to its end.
#[derive(Clone, Copy)]
pub enum ReadFault {
    Failed,
    OutOfMemory,
}

impl From<AllocError> for ReadFault {
    ghost from_gives = { λ _ e. e ≡ ReadFault.OutOfMemory };

    fn from(_error: AllocError) -> Self {
        ReadFault::OutOfMemory
    }
}

/// All bytes that a source gives, but no more than the limit; no more are read, whatever comes. `Failed`
/// comes only where the source met a fault.
#[tactic(auto, using(crate::proofs::Known::gave_none))]
pub fn read_all<I: Source>(alloc: Global, input: &mut I, limit: usize) -> Result<Vec<u8>, ReadFault>
    ensures bytes { IfOk result (λ v. IsReadTo limit (I.told input.old) (I.told input.new) v.items) }
    ensures failed { result ≡ Err ReadFault.Failed
        → Rose (I.told input.old).faults (I.told input.new).faults }
    ensures never_falls { (I.told input.old).faults ≤ (I.told input.new).faults }
    ensures stops { ReadsAtMost limit (I.told input.old) (I.told input.new) }
{
    let mut bytes = Vec::new(alloc);
    let mut buf = zeros(alloc, PIECE)?;
    while bytes.len() < limit {
        buf.truncate(limit - bytes.len());
        let Ok(n) = input.read(buf.as_mut_slice()) else {
            return Err(ReadFault::Failed);
        };
        if n == 0 {
            return Ok(bytes);
        }
        let (given, _) = buf.as_slice().split_at(n);
        bytes.extend_from_slice(given)?;
    }
    Ok(bytes)
}

// A buffer of so many bytes.
fn zeros(alloc: Global, size: usize) -> Result<Vec<u8>, AllocError>
    ensures { IfOk result (λ v. vec_len v ≡ size) }
{
    vec![in alloc; 0u8; size]
}
