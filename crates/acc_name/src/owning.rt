ghost use Rattle.std.specs.Prelude.{◌≡◌, ◌++◌, IfOk, OnOk};
ghost use Rattle.std.specs.String.{string_bytes};
ghost use Rattle.acc_tree.specs.Seen.{seen_row, seen};
ghost use Rattle.acc_tree.specs.Sights.{seen_sight};
ghost use Rattle.acc_name.specs.Names.{followed_text, all_followed};

use crate::named::How;
use crate::placing::push_placed;
use crate::references::Untold;
use crate::room::{Nested, Room};
use crate::telling::spoken;
use crate::told::Scope;
use acc_tree::{Sight, follows, sight_of};
use snap_tree::{OutOfMemory, Row, Text, Tree};
use std::alloc::Global;

// Writes what an element says within a name that another follows, placed as a child's text is. No reference is
// followed there.
fn push_followed(
    alloc: Global,
    room: Room,
    nested: &mut Nested,
    scope: Scope,
    sight: Sight<'_>,
    text: &mut String,
) -> Result<(), OutOfMemory>
    ensures { OnOk result (string_bytes text.new ≡ string_bytes text.old ++ followed_text scope.node scope.hidden (seen_sight sight.entry)) }
{
    let row = sight.row;
    let left = room.less(text.len())?;
    let name = spoken(alloc, &Untold, scope, left, nested, How::Inner, sight)?;
    left.less(name.text.len())?;
    push_placed(text, row, name.text.as_str())
}

/// What the elements say within a name that a node follows by aria-owns, in the order of its words.
pub(crate) fn all_followed(
    alloc: Global,
    room: Room,
    nested: &mut Nested,
    tree: &Tree,
    scope: Scope,
    row: &Row,
) -> Result<Text, OutOfMemory>
    ensures { IfOk result (λ t. t ≡ all_followed (seen tree.now.trees) scope.node scope.hidden (seen_row row.now)) }
{
    let nodes = follows(alloc, tree, row)?;
    let mut text = String::new(alloc);
    for node in nodes.as_slice() {
        if let Some(sight) = sight_of(tree, *node) {
            push_followed(alloc, room, nested, scope, sight, &mut text)?;
        }
    }
    Ok(Text::from_string(text))
}
