ghost use Rattle.std.specs.Prelude.{◌≡◌, ◌≤◌, IfOk};
ghost use Rattle.snap_tree.specs.Trees.{Trees};
ghost use Rattle.acc_tree.specs.Sights.{Sight};
ghost use Rattle.acc_tree.specs.Seen.{seen};
ghost use Rattle.acc_name.specs.declared.told.Told.{Told};
ghost use Rattle.acc_name.specs.Names.{untold, told_by};
ghost use Rattle.acc_name.specs.Voices.{seen_at, told_length};

use crate::room::{Nested, Room};
use crate::told::Told;
use acc_tree::Above;
use snap_tree::{Branches, NodeId, OutOfMemory, Row, Text, Tree};
use std::alloc::Global;

/// What references say of the nodes that are come to while a name is made.
pub(crate) trait References {
    ghost tells: { Self → Sight → Told };

    /// What references say of a node.
    fn told(
        &self,
        alloc: Global,
        room: Room,
        nested: &mut Nested,
        row: &Row,
        below: &Branches<'_>,
        above: &Above<'_>,
    ) -> Result<Told, OutOfMemory>
        ensures tells { IfOk result (λ told. told ≡ tells self.now (seen_at row.now below.now above.now)) }
        ensures fits { IfOk result (λ told. told_length told ≤ room.bytes) };
}

/// Within a reference no other is followed.
#[derive(Drop)]
pub(crate) struct Untold;

impl References for Untold {
    ghost tells = { λ _ s. untold s };

    fn told(
        &self,
        alloc: Global,
        _room: Room,
        _nested: &mut Nested,
        _row: &Row,
        _below: &Branches<'_>,
        _above: &Above<'_>,
    ) -> Result<Told, OutOfMemory> {
        Ok(Told {
            labelled_by: Text::new(alloc),
            labels: Text::new(alloc),
            owned: Text::new(alloc),
        })
    }
}
