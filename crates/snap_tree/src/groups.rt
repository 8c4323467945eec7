ghost use Rattle.std.specs.Prelude.{◌≡◌, [], IfOk, OnOk};
ghost use Rattle.std.specs.String.{string_bytes};
ghost use Rattle.std.specs.Option.{option_map, option_copied};
ghost use Rattle.texts.specs.Words.{folded};
ghost use Rattle.snap_tree.specs.Groups.{key_of, AreGroups, HasPut, group_at};

use crate::labels::{for_of, id_of};
use crate::row::{Body, NodeId, Row, Space};
use std::alloc::Global;
use std::collections::BTreeMap;
use texts::{OutOfMemory, Text};

/// By what rows are grouped.
#[derive(Clone, Copy)]
pub(crate) enum Key {
    /// The folded tag of an HTML element.
    Tag,
    /// The id of an element.
    Id,
    /// The id that a label names.
    For,
}

/// The numbers of the rows with each key, in document order.
pub(crate) type Groups = BTreeMap<String, Vec<NodeId>>;

/// The text with ASCII letters in lower case.
pub(crate) fn folded(alloc: Global, text: &str) -> Result<String, OutOfMemory>
    ensures { IfOk result (λ string. string_bytes string ≡ folded text.now) }
{
    let mut string = String::from_str(alloc, text)?;
    string.make_ascii_lowercase();
    Ok(string)
}

fn key_of(alloc: Global, key: Key, row: &Row) -> Result<Option<String>, OutOfMemory>
    ensures { IfOk result (λ string. option_map string_bytes string ≡ key_of key row.now) }
{
    match key {
        Key::Tag => match row.body.get() {
            Body::Element {
                space: Space::Html,
                tag,
                ..
            } => Ok(Some(folded(alloc, tag.as_str())?)),
            _ => Ok(None),
        },
        Key::Id => string_of(alloc, id_of(row)),
        Key::For => string_of(alloc, for_of(row)),
    }
}

fn string_of(alloc: Global, text: Option<&Text>) -> Result<Option<String>, OutOfMemory>
    ensures { IfOk result (λ string. option_map string_bytes string ≡ option_copied text.entry) }
{
    match text {
        Some(text) => Ok(Some(String::from_str(alloc, text.as_str())?)),
        None => Ok(None),
    }
}

// Adds a number at the end of a group, which begins empty.
fn put(groups: &mut Groups, key: String, id: NodeId) -> Result<(), OutOfMemory>
    ensures { OnOk result (HasPut groups.old groups.new (string_bytes key) id) }
{
    groups.entry(key)?.or_default().push(id)?;
    Ok(())
}

/// Groups rows by a key. A row without the key is in no group.
pub(crate) fn groups_of(alloc: Global, key: Key, rows: &[Row]) -> Result<Groups, OutOfMemory>
    ensures { IfOk result (λ groups. AreGroups key groups rows.now) }
{
    let mut groups: Groups = BTreeMap::new(alloc);
    for row in rows {
        if let Some(text) = key_of(alloc, key, row)? {
            put(&mut groups, text, row.id)?;
        }
    }
    Ok(groups)
}

/// The group of a key; none for a key that no row has.
pub(crate) fn group<'a>(groups: &'a Groups, key: &str) -> &'a [NodeId]
    ensures { result.now ≡ group_at groups.now key.now }
{
    match groups.get(key) {
        Some(group) => group.as_slice(),
        None => &[],
    }
}
