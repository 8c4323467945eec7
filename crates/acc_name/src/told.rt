ghost use Rattle.std.specs.Prelude.{◌≡◌, ◌+◌, false, None, IfOk};
ghost use Rattle.acc_tree.specs.Seen.{seen_row};
ghost use Rattle.acc_name.specs.Voices.{wanted_below, told_length};

use crate::hosts::{CaptionKind, caption_in, host_of};
use crate::room::Room;
use crate::tags::is_select;
use acc_tree::html_tag;
use snap_tree::{NodeId, OutOfMemory, Row, Text};

/// What references say of a node.
#[derive(Drop)]
pub(crate) struct Told {
    /// The elements that its aria-labelledby names, with a space between.
    pub(crate) labelled_by: Text,
    /// Its labels, with a space between.
    pub(crate) labels: Text,
    /// The elements that it follows by aria-owns, each placed as a child's text is.
    pub(crate) owned: Text,
}

impl Told {
    /// What is left of a room while it is held.
    pub(crate) fn within(&self, room: Room) -> Result<Room, OutOfMemory>
        ensures { IfOk result (λ left. left.bytes + told_length self.now ≡ room.bytes) }
    {
        let beside = room.less(self.labelled_by.len())?;
        let left = beside.less(self.labels.len())?;
        left.less(self.owned.len())
    }
}

/// The node whose name is asked, and whether hidden nodes count.
#[derive(Clone, Copy, Debug)]
pub(crate) struct Scope {
    pub(crate) node: NodeId,
    pub(crate) hidden: bool,
}

/// What is asked of trees beside their content.
#[derive(Clone, Copy, Debug)]
pub(crate) struct Wanted {
    /// The roots that caption the node above.
    pub(crate) caption: Option<CaptionKind>,
    /// Whether a `select` above says what the chosen options say.
    pub(crate) chosen: bool,
}

impl Wanted {
    /// What a node asks of those below it, given what is asked of itself.
    pub(crate) fn below(self, row: &Row) -> Self
        ensures { result ≡ wanted_below self (seen_row row.now) }
    {
        Wanted {
            caption: caption_in(host_of(row)),
            chosen: self.chosen | is_select(html_tag(row)),
        }
    }

    /// Nothing.
    pub(crate) const fn nothing() -> Self
        ensures caption { result.caption ≡ None }
        ensures chosen { result.chosen ≡ false }
    {
        Wanted {
            caption: None,
            chosen: false,
        }
    }
}
