//! Reading one item.

ghost use Rattle.std.specs.Prelude.{◌≡◌, ◌&&◌, option_map, if◌then◌else◌, None, IfOk};
ghost use Rattle.std.specs.Str.{is_utf8};
ghost use Rattle.serde_json.specs.Read.{read};
ghost use Rattle.serde_json.specs.View.{view};
ghost use Rattle.json_parts.specs.Parts.{is_shallow, part_of};

use json::{Reader, Scratch};
use serde_json::Value;
use std::alloc::Global;
use std::str::from_utf8;
use texts::OutOfMemory;

// How deep arrays and objects nest in an item: the list and its object are two of 127.
const DEEPEST: usize = 125;

// How deep they nest in a member of an item.
const DEEPEST_INNER: usize = 124;

/// The JSON value that bytes are; None where they aren't UTF-8, or aren't JSON nested at most 125 deep, or hold a number too
/// great for a 64-bit float or an escape of a lone surrogate. Fails only for want of memory.
#[tactic(auto, unfolding(crate::specs::Parts::value_of))]
pub fn read_part(alloc: Global, part: &[u8]) -> Result<Option<Value>, OutOfMemory>
    ensures { IfOk result (λ v. option_map view v ≡ part_of part.now) }
{
    match from_utf8(part) {
        Ok(text) => read_text(alloc, text),
        Err(_) => Ok(None),
    }
}

/// Whether bytes are a JSON text that may be the last member of an item: UTF-8, and nested at most 124 deep. Fails only for want
/// of memory.
pub fn is_inner(alloc: Global, bytes: &[u8]) -> Result<bool, OutOfMemory>
    ensures { IfOk result (λ b. b ≡ (is_utf8 bytes.now && is_shallow 124 bytes.now)) }
{
    match from_utf8(bytes) {
        Ok(text) => is_shallow(alloc, DEEPEST_INNER, text),
        Err(_) => Ok(false),
    }
}

fn read_text(alloc: Global, text: &str) -> Result<Option<Value>, OutOfMemory>
    ensures { IfOk result (λ v. option_map view v ≡ (if is_shallow 125 text.now then read text.now else None)) }
{
    if !is_shallow(alloc, DEEPEST, text)? {
        return Ok(None);
    }
    match Value::from_str(alloc, text) {
        Ok(value) => Ok(Some(value)),
        Err(error) if error.is_memory() => Err(OutOfMemory),
        Err(_) => Ok(None),
    }
}

#[tactic(auto, unfolding(crate::specs::Parts::is_shallow))]
fn is_shallow(alloc: Global, depth: usize, text: &str) -> Result<bool, OutOfMemory>
    ensures { IfOk result (λ b. b ≡ is_shallow depth text.now) }
{
    let mut scratch = Scratch::new(alloc);
    let mut reader = Reader::new(text, &mut scratch)?;
    Ok(reader.skip_value(depth).is_ok() && reader.next().is_none())
}
