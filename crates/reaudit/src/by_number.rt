ghost use Rattle.std.specs.Prelude.{IfOk};
ghost use Rattle.reaudit.specs.ByNumber.{HasEach};

use crate::known::Known;
use number_tables::NumberTable;
use page_changes::Flags;
use snap_tree::OutOfMemory;
use std::alloc::Global;

/// What is known by a list of flags, by the numbers of their nodes.
pub(crate) fn by_number(alloc: Global, list: &[Flags]) -> Result<NumberTable<Known>, OutOfMemory>
    ensures { IfOk result (λ table. HasEach list.now table) }
{
    let mut table = NumberTable::with_room(alloc, list.len())?;
    let mut rest = list;
    let mut place = 0;
    while let Some((flags, later)) = rest.split_first() {
        let flags = *flags;
        table.put(flags.node.0, Known { place, flags })?;
        place += 1;
        rest = later;
    }
    Ok(table)
}
