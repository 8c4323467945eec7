//! Routes by the segments of a path, looked up by `matchit`. A table is a list of rows, each a row of words and
//! names with what it stands for: `route_of` of `specs/Pieces.antt` is the first row that fits a path, with the
//! path's parameters. A router whose routes are `rows_of` a table (`specs/Spelling.antt`) answers the same to
//! each path of ASCII, if the table is one of `is_table`: `told` and `untold` of `proofs/Telling.antt`. Start with
//! `path_of`, the path of a target (RFC 9112, section 3.2.1).
#![tactic(auto)]

mod target;

pub use target::path_of;
