//! What a run finds where its arguments can't be had.

ghost use Rattle.std.specs.Prelude.{◌≡◌};
ghost use Rattle.std.specs.IoError.{error_kind};
ghost use Rattle.audit_run.specs.Arguments.{found_by};

use crate::found::Found;
use std::io;
use std::io::ErrorKind;

impl From<io::Error> for Found {
    ghost from_gives = { λ error found. found ≡ found_by (error_kind error) };

    fn from(error: io::Error) -> Self {
        match error.kind() {
            ErrorKind::OutOfMemory => Found::NoMemory,
            _ => Found::Usage,
        }
    }
}
