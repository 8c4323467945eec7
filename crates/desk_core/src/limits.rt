ghost use Rattle.std.specs.Prelude.{◌≡◌};

/// How many pages a site holds at the most.
pub const MOST_PAGES: usize = 500;

/// How many bytes a note has at the most.
pub const MOST_NOTE: usize = 2_000;

/// How many pages an import has at the most.
pub const MOST_ENTRIES: usize = 64;

/// How many pages of a site are audited anew at once.
pub const MOST_BATCH: usize = 64;

/// The numbers of the limits. It does nothing: the clauses are what it is for.
pub fn laws_of_limits()
    ensures pages { MOST_PAGES ≡ 500 }
    ensures note { MOST_NOTE ≡ 2_000 }
    ensures entries { MOST_ENTRIES ≡ 64 }
    ensures batch { MOST_BATCH ≡ 64 }
{}
