ghost use Rattle.std.specs.Prelude.{◌≡◌};

/// How many cases a list has at the most.
pub const MOST_CASES: usize = 64;

/// How many bytes a list has at the most.
pub const MOST_CASES_BYTES: usize = 8_388_608;

/// The numbers of the limits, since definitions name the constants. It does nothing: the clauses are what it is for.
pub fn laws_of_limits()
    ensures cases { MOST_CASES ≡ 64 }
    ensures bytes { MOST_CASES_BYTES ≡ 8388608 }
{}
