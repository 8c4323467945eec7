ghost use Rattle.std.specs.Prelude.{◌≡◌};
ghost use Rattle.acc_tree.specs.Seen.{seen_row};
ghost use Rattle.acc_name.specs.Captions.{captioning, caption_or, is_captioned};
ghost use Rattle.acc_name.specs.Hosts.{is_captioning};

use crate::hosts::{CaptionKind, Host, is_captioning};
use snap_tree::Row;

/// What is known of the first root that captions the node above.
#[derive(Clone, Copy, Debug, PartialEq, Eq)]
pub(crate) enum Caption {
    /// There is none.
    Absent,
    /// Its text is blank, so that it doesn't name the node above.
    Blank,
    /// Its text isn't blank, and stands in the place of all that the roots say.
    Said,
}

/// The first caption, given what is known of those before a root, and whether its text is blank.
pub(crate) fn captioned(
    first: Caption,
    kind: Option<CaptionKind>,
    row: &Row,
    is_blank: bool,
) -> Caption
    ensures { result ≡ caption_or first (captioning (is_captioning kind (seen_row row.now)) is_blank) }
{
    if first != Caption::Absent {
        return first;
    }
    match (is_captioning(kind, row), is_blank) {
        (true, true) => Caption::Blank,
        (true, false) => Caption::Said,
        (false, _) => Caption::Absent,
    }
}

/// Whether a caption names an element, given whether what is kept of those below it is blank.
pub(crate) fn is_captioned(host: Host, caption: Caption, is_blank: bool) -> bool
    ensures { result ≡ is_captioned host caption is_blank }
{
    matches!((host, caption), (Host::Captioned(_), Caption::Said)) & !is_blank
}
