ghost use Rattle.std.specs.Prelude.{◌≡◌};

/// How many characters the name of a site, a page or a user has at the most. Each is one byte.
pub const MOST_NAME: usize = 64;

/// The greatest revision, the greatest counter of a site, and the greatest edition: 2^63 - 1.
pub const MOST_REVISION: u64 = 9_223_372_036_854_775_807;

/// The numbers of the limits. It does nothing: the clauses are what it is for.
pub fn laws_of_limits()
    ensures name { MOST_NAME ≡ 64 }
    ensures revision { MOST_REVISION ≡ 9_223_372_036_854_775_807 }
{}
