ghost use Rattle.std.specs.Prelude.{◌≡◌, IfOk};
ghost use Rattle.audit_run.specs.FaultLine.{fault_line};

use snap_json::SnapFault;
use snap_tree::{OutOfMemory, Text};
use std::alloc::Global;

/// The line that names what is wrong with a snapshot: the number and the name of the fault, and then
/// the place and the field, or the number and the name of the fault of the rows and the node.
pub fn fault_line(alloc: Global, fault: SnapFault) -> Result<Text, OutOfMemory>
    ensures { IfOk result (λ line. line ≡ fault_line fault) }
{
    Ok(Text::from_string(format!(in alloc; "snapshot fault {fault}\n")?))
}
