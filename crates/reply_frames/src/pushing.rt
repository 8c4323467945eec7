ghost use Rattle.std.specs.Prelude.{◌≡◌, ◌++◌, length, decimal, OnOk};
ghost use Rattle.std.specs.Vec.{vec_capacity};
ghost use Rattle.reply_frames.specs.Pushing.{Fits};

use itoa::Buffer;
use std::alloc::AllocError;

/// The most digits of a number.
pub const MOST_DIGITS: usize = 20;

/// Puts bytes at the end. Memory is taken only where there isn't room for them, and fails only there.
pub fn push(out: &mut Vec<u8>, piece: &[u8]) -> Result<(), AllocError>
    ensures pushed { OnOk result (out.new.items ≡ out.old.items ++ piece.now) }
    ensures fits { Fits (length piece.now) out.old.items (vec_capacity out.old) out.new.items (vec_capacity out.new) result }
{
    out.extend_from_slice(piece)
}

/// Puts a number at the end, in decimal. Memory is taken only where there isn't room for its digits, and
/// fails only where there isn't room for 20.
pub fn push_number(out: &mut Vec<u8>, n: u64) -> Result<(), AllocError>
    ensures pushed { OnOk result (out.new.items ≡ out.old.items ++ decimal n) }
    ensures fits { Fits MOST_DIGITS out.old.items (vec_capacity out.old) out.new.items (vec_capacity out.new) result }
{
    let mut digits = Buffer::new();
    push(out, digits.format(n).as_bytes())
}
