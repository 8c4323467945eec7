ghost use Rattle.std.specs.Prelude.{◌≡◌, ◌⊎◌, IfOk};
ghost use Rattle.store_run.specs.Refusal.{edition_line, refusal_number, TellsLine, TellsRefusal, TellsOrWants};

use desk_run::Status;
use snap_tree::{OutOfMemory, Text};
use std::alloc::Global;
use streams::{Sink, write_all};

/// Why a store isn't run over.
#[derive(Clone, Copy, Debug, PartialEq, Eq)]
pub enum StoreRefusal {
    /// The store's rows are of this edition, which isn't taken.
    OtherEdition { number: u64 },
    /// The store can't be prepared.
    StoreFault,
    NoMemory,
}

impl StoreRefusal {
    /// The number that a run ends with.
    pub fn number(self) -> u8
        ensures { result ≡ refusal_number self }
    {
        match self {
            StoreRefusal::OtherEdition { .. } => 9,
            StoreRefusal::StoreFault => Status::StoreFault.number(),
            StoreRefusal::NoMemory => Status::NoMemory.number(),
        }
    }
}

/// Tells a refusal by a line on `err`, and gives the number that a run ends with then: that of the refusal, and 4 where
/// the line can't be written. Where there is no memory for the line on an edition, want of memory is told in its place.
pub fn refuse<E: Sink>(alloc: Global, err: &mut E, refusal: StoreRefusal) -> u8
    ensures { TellsOrWants refusal (E.told err.old) (E.told err.new) result }
{
    match refusal {
        StoreRefusal::OtherEdition { number } => refuse_edition(alloc, err, number),
        StoreRefusal::StoreFault => tell_line(err, refusal.number(), Status::StoreFault.line()),
        StoreRefusal::NoMemory => tell_line(err, refusal.number(), Status::NoMemory.line()),
    }
}

fn refuse_edition<E: Sink>(alloc: Global, err: &mut E, number: u64) -> u8
    ensures { TellsOrWants (StoreRefusal.OtherEdition number) (E.told err.old) (E.told err.new) result }
{
    match edition_line(alloc, number) {
        Ok(line) => tell_line(
            err,
            StoreRefusal::OtherEdition { number }.number(),
            line.as_str(),
        ),
        Err(OutOfMemory) => tell_line(
            err,
            StoreRefusal::NoMemory.number(),
            Status::NoMemory.line(),
        ),
    }
}

// The line that names an edition.
fn edition_line(alloc: Global, number: u64) -> Result<Text, OutOfMemory>
    ensures { IfOk result (λ line. line ≡ edition_line number) }
{
    Ok(Text::from_string(format!(in alloc; "edition fault {number}\n")?))
}

// Writes a line, after which a run ends with this number.
fn tell_line<E: Sink>(err: &mut E, number: u8, line: &str) -> u8
    ensures { TellsLine number line.now (E.told err.old) (E.told err.new) result }
{
    match write_all(err, line.as_bytes()) {
        Ok(()) => number,
        Err(_) => Status::WriteFault.number(),
    }
}
