ghost use Rattle.std.specs.Prelude.{◌≡◌, ◌≤◌, IfOk};
ghost use Rattle.streams.specs.Streams.{ReadsAtMost};
ghost use Rattle.audit_run.specs.declared.auditing.TheConstants.{MOST_READ};
ghost use Rattle.audit_run.specs.Telling.{status_of, writing_of};
ghost use Rattle.audit_run.specs.Audit.{report_of, has_failed, fails, IsFoundIn, AuditCause};

use crate::fault_lines::fault_line;
use crate::found::Found;
use audit::audit_page;
use judge_core::{OutRow, infos_of};
use reports::{is_outcome, text_report};
use rule_core::{Auto, RuleBook};
use snap_json::{MOST_SNAPSHOT_BYTES, SnapFault, read_snapshot};
use snap_tree::{List, OutOfMemory, Tree};
use std::alloc::Global;
use streams::{ReadFault, Source, read_all};

/// How many bytes an audit reads at most: one more than a snapshot may have.
pub const MOST_READ: usize = MOST_SNAPSHOT_BYTES + 1;

/// How many bytes an audit reads at most, as a number, since definitions name the constant. It does nothing: the
/// clause is what it is for.
pub fn laws_of_limits()
    ensures read { MOST_READ ≡ 8388609 }
{}

/// Reads one snapshot to the end of the source, or to the 8,388,609th byte, and judges it by a book.
#[tactic(auto, using(crate::proofs::Causes::audited))]
pub fn audit<I: Source, B: RuleBook>(alloc: Global, input: &mut I, book: &mut B) -> Found
    ensures cause { AuditCause B.book
        (I.told input.old) (I.told input.new) (status_of result) (writing_of result) }
    ensures never_falls { (I.told input.old).faults ≤ (I.told input.new).faults }
    ensures stops { ReadsAtMost MOST_READ (I.told input.old) (I.told input.new) }
{
    match read_all(alloc, input, MOST_READ) {
        Ok(bytes) => audit_bytes(alloc, bytes.as_slice(), book),
        Err(ReadFault::Failed) => Found::ReadFault,
        Err(ReadFault::OutOfMemory) => Found::NoMemory,
    }
}

fn audit_bytes<B: RuleBook>(alloc: Global, bytes: &[u8], book: &mut B) -> Found
    ensures { IsFoundIn B.book bytes.now result }
{
    match read_snapshot(alloc, bytes) {
        Ok(tree) => match report(alloc, &tree, book) {
            Ok((output, failed)) => Found::Finished { output, failed },
            Err(OutOfMemory) => Found::NoMemory,
        },
        Err(SnapFault::OutOfMemory) => Found::NoMemory,
        Err(fault) => match fault_line(alloc, fault) {
            Ok(line) => Found::NotSnapshot { line },
            Err(OutOfMemory) => Found::NoMemory,
        },
    }
}

// The report of a page, and whether some final outcome is failed.
fn report<B: RuleBook>(
    alloc: Global,
    tree: &Tree,
    book: &mut B,
) -> Result<(List<u8>, bool), OutOfMemory>
    ensures report { IfOk result (λ r. r.0 ≡ report_of B.book tree.now) }
    ensures failed { IfOk result (λ r. r.1 ≡ fails B.book tree.now) }
{
    let infos = infos_of(alloc, book)?;
    let outcomes = audit_page(alloc, book, tree, &[])?;
    let report = text_report(alloc, tree.address(), infos.as_slice(), &outcomes)?;
    let failed = has_failed(outcomes.rows.as_slice());
    Ok((List::from_vec(report), failed))
}

// Whether some final outcome is failed.
fn has_failed(rows: &[OutRow]) -> bool
    ensures { result ≡ has_failed rows.now }
{
    rows.iter().any(|row| is_outcome(Auto::Failed, row.last))
}
