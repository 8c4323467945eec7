ghost use Rattle.std.specs.Prelude.{◌≡◌};
ghost use Rattle.audit_run.specs.Telling.{status_of, writing_of, Tells};

use crate::found::Found;
use crate::status::Status;
use streams::{Sink, write_all};

/// Writes what a run has found: its output on `out`, and its line on `err`. Gives the status, which is
/// `WriteFault` where a sink failed; then a line says so on `err`, unless that is the sink that failed.
pub fn tell<O: Sink, E: Sink>(out: &mut O, err: &mut E, found: &Found) -> Status
    ensures { Tells (status_of found.now) (writing_of found.now)
        (O.told out.old) (O.told out.new) (E.told err.old) (E.told err.new) result }
{
    if write_all(out, output_of(found)).is_err() {
        let _ = write_all(err, Status::WriteFault.line().as_bytes());
        return Status::WriteFault;
    }
    if write_all(err, line_of(found)).is_err() {
        return Status::WriteFault;
    }
    status_of(found)
}

fn output_of(found: &Found) -> &[u8]
    ensures { result.now ≡ (writing_of found.now).output }
{
    match found {
        Found::Finished { output, .. } => output.as_slice(),
        _ => &[],
    }
}

fn line_of(found: &Found) -> &[u8]
    ensures { result.now ≡ (writing_of found.now).line }
{
    match found {
        Found::Finished { .. } | Found::Served => &[],
        Found::NotSnapshot { line } => line.as_str().as_bytes(),
        _ => status_of(found).line().as_bytes(),
    }
}

/// The status where all can be written.
pub fn status_of(found: &Found) -> Status
    ensures { result ≡ status_of found.now }
{
    match found {
        Found::Finished { failed: true, .. } => Status::SomeFailed,
        Found::Finished { failed: false, .. } | Found::Served => Status::Done,
        Found::Usage => Status::UsageFault,
        Found::ReadFault => Status::ReadFault,
        Found::NotSnapshot { .. } => Status::SnapshotFault,
        Found::StoreFault => Status::StoreFault,
        Found::ListenFault => Status::ListenFault,
        Found::NoMemory => Status::NoMemory,
    }
}
