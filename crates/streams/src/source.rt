ghost use Rattle.std.specs.Prelude.{◌<◌, ◌≤◌, length, IfOk};
ghost use Rattle.streams.specs.Told.{Input};
ghost use Rattle.streams.specs.Streams.{Read, Counts, before_left, left_is};

use crate::failed::Failed;

/// What bytes are read from.
pub trait Source {
    /// The count of its faults, and the bytes that it still gives, where it tells them.
    ghost told: { Self → Input };

    /// Reads into the front of a buffer that isn't empty. Gives how many bytes, which is 0 at the end. `Failed` comes
    /// only where the source met a fault; a read that doesn't fail leaves the count of faults.
    fn read(&mut self, buf: &mut [u8]) -> Result<usize, Failed>
        requires { 0 < length buf.old }
        ensures read { Read before_left left_is buf.new (told self.old).left (told self.new).left result }
        ensures within { IfOk result (λ n. n ≤ length buf.old) }
        ensures counts { Counts (told self.old).faults (told self.new).faults result };
}
