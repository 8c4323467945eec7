ghost use Rattle.std.specs.Prelude.{◌≡◌, ◌++◌, decimal, OnOk};

use itoa::Buffer;
use snap_tree::OutOfMemory;

/// Puts bytes at the end of a report.
pub fn push(report: &mut Vec<u8>, bytes: &[u8]) -> Result<(), OutOfMemory>
    ensures { OnOk result (report.new.items ≡ report.old.items ++ bytes.now) }
{
    report.extend_from_slice(bytes)?;
    Ok(())
}

/// Puts a number at the end of a report, in decimal.
pub fn push_number(report: &mut Vec<u8>, n: u64) -> Result<(), OutOfMemory>
    ensures { OnOk result (report.new.items ≡ report.old.items ++ decimal n) }
{
    let mut digits = Buffer::new();
    push(report, digits.format(n).as_bytes())
}
