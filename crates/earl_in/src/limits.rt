ghost use Rattle.std.specs.Prelude.{◌≡◌};

/// How many entries are read at once, at the most.
pub const MOST_CLAIMS: usize = 10_000;

/// How many bytes a note has at the most.
pub const MOST_NOTE: usize = 2_000;

/// The numbers of the limits, since definitions name the constants. It does nothing: the clauses are what it is for.
pub fn laws_of_limits()
    ensures claims { MOST_CLAIMS ≡ 10000 }
    ensures note { MOST_NOTE ≡ 2000 }
{}
