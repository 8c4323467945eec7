ghost use Rattle.std.specs.Prelude.{◌≡◌, IfOk};
ghost use Rattle.std.specs.Option.{option_copied};
ghost use Rattle.snap_edit.specs.Attrs.{attrs_with, attrs_without, attrs_after};
ghost use Rattle.snap_edit.specs.AttrPlaces.{attr_place};

use snap_tree::{Attr, OutOfMemory, Text, copies_of, same_folded};
use std::alloc::Global;

// The place of the first attribute of this name, compared ASCII case-insensitively.
fn attr_place(attrs: &[Attr], name: &Text) -> Option<usize>
    ensures { result ≡ attr_place 0 name.now attrs.now }
{
    let mut place = 0;
    let mut rest = attrs;
    while let Some((attr, later)) = rest.split_first() {
        if same_folded(attr.name.as_str(), name.as_str()) {
            return Some(place);
        }
        place += 1;
        rest = later;
    }
    None
}

// The attributes with this value for the name.
fn attrs_with(
    alloc: Global,
    attrs: &[Attr],
    name: &Text,
    value: &Text,
) -> Result<Vec<Attr>, OutOfMemory>
    ensures { IfOk result (λ new. new.items ≡ attrs_with name.now value.now attrs.now) }
{
    let mut copies = copies_of(alloc, attrs)?;
    let value = value.copy(alloc)?;
    match attr_place(attrs, name) {
        Some(place) => {
            copies[place].value = value;
            Ok(copies)
        }
        None => {
            let name = name.copy(alloc)?;
            copies.push(Attr { name, value })?;
            Ok(copies)
        }
    }
}

// The attributes without the name.
fn attrs_without(alloc: Global, attrs: &[Attr], name: &Text) -> Result<Vec<Attr>, OutOfMemory>
    ensures { IfOk result (λ new. new.items ≡ attrs_without name.now attrs.now) }
{
    let mut copies = copies_of(alloc, attrs)?;
    let Some(place) = attr_place(attrs, name) else {
        return Ok(copies);
    };
    copies.remove(place);
    Ok(copies)
}

/// The attributes with this value for the name, or without the name where there is no value.
pub(crate) fn attrs_after(
    alloc: Global,
    attrs: &[Attr],
    name: &Text,
    value: Option<&Text>,
) -> Result<Vec<Attr>, OutOfMemory>
    ensures { IfOk result
        (λ new. new.items ≡ attrs_after name.now (option_copied value.entry) attrs.now) }
{
    match value {
        Some(value) => attrs_with(alloc, attrs, name, value),
        None => attrs_without(alloc, attrs, name),
    }
}
