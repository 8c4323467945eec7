//! Counts of what befalls an object, as faults and judgings, and calls that a list names by their counts. A count
//! never falls, and stands still at the greatest `u64`. Start with `next`.
#![tactic(auto)]

ghost use Rattle.std.specs.Prelude.{◌≡◌, ◌≤◌};
ghost use Rattle.counts.specs.Counts.{next, Rose};

mod calls;

pub use calls::is_named;

/// A count after one more: at the greatest `u64` it stands still.
pub fn next(count: u64) -> u64
    ensures next { result ≡ next count }
    ensures never_falls { count ≤ result }
    ensures rose { Rose count result }
{
    count.saturating_add(1)
}
