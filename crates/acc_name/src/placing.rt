ghost use Rattle.std.specs.Prelude.{◌≡◌, ◌++◌, ◌≤◌, take, drop, if◌then◌else◌, OnOk, IsCharBoundary};
ghost use Rattle.std.specs.String.{string_bytes};
ghost use Rattle.texts.specs.Words.{blank};
ghost use Rattle.acc_tree.specs.Seen.{seen_row};
ghost use Rattle.acc_name.specs.Hosts.{is_captioning};
ghost use Rattle.acc_name.specs.Names.{stands_apart, placed};
ghost use Rattle.acc_name.specs.Placing.{place_at, gap, gap_before, settled};

use crate::captions::Caption;
use crate::hosts::{CaptionKind, is_captioning};
use crate::tags::is_inline;
use acc_tree::known_tag;
use snap_tree::{Body, OutOfMemory, Row};

/// What becomes of the text of a root.
#[derive(Clone, Copy, Debug, PartialEq, Eq)]
pub(crate) enum TextPlace {
    /// It stands among the texts of the other roots.
    Among,
    /// It captions the node above, and takes the place of the other texts unless it is blank.
    Captioning,
    /// A caption stands in the place of all texts.
    Nowhere,
}

/// Where the text of a root stands.
#[derive(Clone, Copy, Debug)]
pub(crate) struct Stand {
    pub(crate) place: TextPlace,
    /// Where the texts of the roots begin.
    pub(crate) start: usize,
    /// Where the text of this root begins.
    pub(crate) mark: usize,
}

/// What becomes of the text of a root, given what is known of those before it.
pub(crate) fn place_of(first: Caption, kind: Option<CaptionKind>, row: &Row) -> TextPlace
    ensures { result ≡ place_at first (is_captioning kind (seen_row row.now)) }
{
    match first {
        Caption::Absent => {
            if is_captioning(kind, row) {
                TextPlace::Captioning
            } else {
                TextPlace::Among
            }
        }
        Caption::Blank => TextPlace::Among,
        Caption::Said => TextPlace::Nowhere,
    }
}

// Whether the text of a node stands apart from the texts around it: that of an element does, unless its
// tag is one that stands within a line.
fn stands_apart(row: &Row) -> bool
    ensures { result ≡ stands_apart (seen_row row.now).body }
{
    match row.body.get() {
        Body::Element { tag, .. } => !is_inline(known_tag(tag.as_str())),
        Body::Words { .. } => false,
    }
}

// Writes the space that stands beside the text of a node that stands apart.
fn part(content: &mut String, row: &Row) -> Result<(), OutOfMemory>
    ensures { OnOk result (string_bytes content.new ≡ string_bytes content.old ++ gap (seen_row row.now)) }
{
    if stands_apart(row) {
        content.push_str(" ")?;
    }
    Ok(())
}

/// Writes the space before the text of a root that stands among others.
pub(crate) fn part_before(
    content: &mut String,
    place: TextPlace,
    row: &Row,
) -> Result<(), OutOfMemory>
    ensures { OnOk result (string_bytes content.new ≡ string_bytes content.old ++ gap_before place (seen_row row.now)) }
{
    match place {
        TextPlace::Among => part(content, row),
        TextPlace::Captioning | TextPlace::Nowhere => Ok(()),
    }
}

/// Writes a text behind others, with the spaces on both sides of it where it stands apart.
pub(crate) fn push_placed(content: &mut String, row: &Row, text: &str) -> Result<(), OutOfMemory>
    ensures { OnOk result (string_bytes content.new ≡ string_bytes content.old ++ placed (seen_row row.now) text.now) }
{
    part(content, row)?;
    content.push_str(text)?;
    part(content, row)
}

// Writes the spaces on both sides of a text.
fn part_around(content: &mut String, mark: usize, row: &Row) -> Result<(), OutOfMemory>
    requires { IsCharBoundary (string_bytes content.old) mark }
    ensures { OnOk result (string_bytes content.new ≡ take mark (string_bytes content.old) ++ placed (seen_row row.now) (drop mark (string_bytes content.old))) }
{
    if !stands_apart(row) {
        return Ok(());
    }
    content.insert_str(mark, " ")?;
    content.push_str(" ")?;
    Ok(())
}

// Keeps a text that captions the node above, in the place of what stands from the start on unless it is
// blank. It is moved only where something stands before it.
fn keep_caption(
    content: &mut String,
    start: usize,
    mark: usize,
    row: &Row,
    is_blank: bool,
) -> Result<(), OutOfMemory>
    requires start { IsCharBoundary (string_bytes content.old) start }
    requires mark { IsCharBoundary (string_bytes content.old) mark }
    requires order { start ≤ mark }
    ensures { OnOk result (string_bytes content.new ≡ (if is_blank then take mark (string_bytes content.old) ++ placed (seen_row row.now) (drop mark (string_bytes content.old)) else take start (string_bytes content.old) ++ drop mark (string_bytes content.old))) }
{
    if is_blank {
        return part_around(content, mark, row);
    }
    if start < mark {
        content.replace_range(start..mark, "")?;
    }
    Ok(())
}

/// Keeps what is to be kept of the text of a root, given whether it is blank.
pub(crate) fn keep(
    content: &mut String,
    stand: Stand,
    row: &Row,
    is_blank: bool,
) -> Result<(), OutOfMemory>
    requires start { IsCharBoundary (string_bytes content.old) stand.start }
    requires mark { IsCharBoundary (string_bytes content.old) stand.mark }
    requires order { stand.start ≤ stand.mark }
    requires blank { is_blank ≡ blank (drop stand.mark (string_bytes content.old)) }
    ensures { OnOk result (string_bytes content.new ≡ settled stand.place stand.start (seen_row row.now) (take stand.mark (string_bytes content.old)) (drop stand.mark (string_bytes content.old))) }
{
    let Stand { place, start, mark } = stand;
    match place {
        TextPlace::Among => part(content, row),
        TextPlace::Captioning => keep_caption(content, start, mark, row, is_blank),
        TextPlace::Nowhere => {
            content.truncate(mark);
            Ok(())
        }
    }
}
