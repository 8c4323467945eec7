ghost use Rattle.std.specs.Prelude.{◌≡◌, ◌<◌, ◌≤◌, length, IfOk, OnErr};
ghost use Rattle.counts.specs.Counts.{next};
ghost use Rattle.streams.specs.Told.{Output};
ghost use Rattle.streams.specs.Streams.{Written, Counts, after_held};

use crate::failed::Failed;

/// What bytes are written to.
pub trait Sink {
    /// The count of its faults, and the bytes that it holds, where it tells them.
    ghost told: { Self → Output };

    /// Writes the front of a piece that isn't empty. Gives how many bytes it took, 1 or more. The count of faults
    /// rises by one where it fails, and else stays.
    fn write(&mut self, piece: &[u8]) -> Result<usize, Failed>
        requires { 0 < length piece.now }
        ensures written { Written after_held piece.now (told self.old).held (told self.new).held result }
        ensures some { IfOk result (λ n. 0 < n) }
        ensures within { IfOk result (λ n. n ≤ length piece.now) }
        ensures counts { Counts (told self.old).faults (told self.new).faults result }
        ensures fault { OnErr result ((told self.new).faults ≡ next (told self.old).faults) };
}
