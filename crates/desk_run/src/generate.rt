ghost use Rattle.std.specs.Prelude.{◌<◌, ◌+◌, ◌≤◌, length, map, sum};
ghost use Rattle.audit_run.specs.Telling.{status_of, writing_of};
ghost use Rattle.desk_run.specs.Generate.{GenerateCause, made_judgings};

use audit_run::Found;
use desk_words::Generating;
use made_audit::made_line;
use rule_core::RuleBook;
use snap_tree::OutOfMemory;
use std::alloc::Global;
use std::thread::Threads;

/// Makes pages, audits them with all the books, and gives the line that they come to.
pub fn generate<R: Threads + Sync, B: RuleBook + Send>(
    rt: &R,
    alloc: Global,
    generating: Generating,
    books: &mut [B],
) -> Found
    requires { 0 < length books.old }
    ensures cause { GenerateCause B.book generating (status_of result) (writing_of result) }
    ensures counted { sum (map B.calls books.new) ≤ sum (map B.calls books.old) + made_judgings B.book generating }
{
    match made_line(rt, alloc, books, generating.number, generating.pages) {
        Ok(output) => Found::Finished {
            output,
            failed: false,
        },
        Err(OutOfMemory) => Found::NoMemory,
    }
}
