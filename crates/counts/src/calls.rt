ghost use Rattle.std.specs.Prelude.{◌≡◌};
ghost use Rattle.counts.specs.Calls.{is_named};

use crate::next;

/// Whether the list names the call after so many by its number, as of an object in memory whose calls fail.
/// Calls are numbered from 1, and the number stands still as a count does.
pub fn is_named(list: &[u64], calls: u64) -> bool
    ensures { result ≡ is_named list.now calls }
{
    list.contains(&next(calls))
}
