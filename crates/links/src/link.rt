ghost use Rattle.std.specs.Prelude.{◌≡◌, ℕ, ◌<◌, ◌≤◌, length, Option, IfOk};
ghost use Rattle.streams.specs.Streams.{Read, Written, Counts};
ghost use Rattle.links.specs.Wires.{Wire, EndsAlike, unread, left_of, extended, Allows};

use streams::Failed;

/// A connection to one peer. How many reads it still allows, and its count of faults, which never falls and
/// rises only in a call that fails, are always told; its bytes only by a link in memory.
pub trait Link {
    /// All that it gives, what of that is left, and all that was written, where it tells them.
    ghost wire: { Self → Option Wire };

    /// How many reads are still allowed.
    ghost reads: { Self → ℕ };

    /// The count of its faults.
    ghost faults: { Self → ℕ };

    /// Reads into the front of a buffer that isn't empty. Gives how many bytes, which is 0 at the end.
    /// `Failed` comes only where the link met a fault, as at each read when none is still allowed; a read
    /// that doesn't fail leaves the count of faults.
    fn read(&mut self, buf: &mut [u8]) -> Result<usize, Failed>
        requires { 0 < length buf.old }
        ensures read { Read unread left_of buf.new (wire self.old) (wire self.new) result }
        ensures allowed { Allows (reads self.old) (reads self.new) result }
        ensures within { IfOk result (λ n. n ≤ length buf.old) }
        ensures counts { Counts (faults self.old) (faults self.new) result };

    /// Writes the front of a piece that isn't empty. Gives how many bytes it took, 1 or more. `Failed`
    /// comes only where the link met a fault; a write that doesn't fail leaves the count of faults.
    fn write(&mut self, piece: &[u8]) -> Result<usize, Failed>
        requires { 0 < length piece.now }
        ensures written { Written extended piece.now (wire self.old) (wire self.new) result }
        ensures kept { reads self.new ≡ reads self.old }
        ensures some { IfOk result (λ n. 0 < n) }
        ensures within { IfOk result (λ n. n ≤ length piece.now) }
        ensures counts { Counts (faults self.old) (faults self.new) result };

    /// What isn't read yet is the end of all that it gives.
    ghost ends_alike: { (link : Self) → EndsAlike (wire link) };
}
