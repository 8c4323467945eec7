ghost use Rattle.std.specs.Prelude.{◌≡◌, map};
ghost use Rattle.std.specs.Iterator.{YieldsFirst, item_count};
ghost use Rattle.snap_tree.specs.Spots.{roots};

use crate::branches::Branches;
use crate::row::NodeId;
use std::marker::Model;

/// The numbers of a node's children, in order. Contracts see the list of those that are left.
#[derive(Drop)]
pub struct Kids<'a> {
    rest: Branches<'a>,
}

impl<'a> Model for Kids<'a> {
    ghost use Rattle.std.specs.Prelude.{List, map};
    ghost use Rattle.snap_tree.specs.declared.row.NodeId.{NodeId};
    ghost use Rattle.snap_tree.specs.Spots.{roots};

    ghost Value = { List NodeId };

    ghost view = { λ k. map (λ r. r.id) (roots k.rest) };
}

impl<'a> Kids<'a> {
    pub(crate) fn of(rest: Branches<'a>) -> Self
        ensures { result ≡ map (λ r. r.id) (roots rest.entry) }
    {
        Kids { rest }
    }
}

impl<'a> Iterator for Kids<'a> {
    type Item = NodeId;

    ghost next_gives = { YieldsFirst (λ s. s) };

    ghost remaining = { item_count (λ s. s) };

    fn next(&mut self) -> Option<NodeId> {
        let branch = self.rest.first()?;
        self.rest = branch.after;
        Some(branch.row.id)
    }
}
