ghost use Rattle.std.specs.Prelude.{◌≡◌, OkIff, IfOk};
ghost use Rattle.fixture_pages.specs.Texts.{before, behind, IsNumber, number_in, spaced};

use crate::fault::RowFault;
use snap_tree::{OutOfMemory, Text};
use std::alloc::Global;

/// What stands before a text's first space, and behind it; all and nothing where it has none.
pub fn cut(text: &str) -> (&str, &str)
    ensures before { result.0.now ≡ before 32 text.now }
    ensures behind { result.1.now ≡ behind 32 text.now }
{
    match text.split_once(' ') {
        Some(parts) => parts,
        None => (text, ""),
    }
}

/// The number that a text is in decimal digits, where it is one below 2^32.
pub fn number(text: &str) -> Result<u32, RowFault>
    ensures { OkIff result (IsNumber text.now) (number_in text.now) }
{
    match text.parse::<u32>() {
        Ok(number) => Ok(number),
        Err(_) => Err(RowFault::NoRow),
    }
}

/// A text with a space in place of each `~`. Fails only for want of memory.
#[tactic(auto, using(crate::proofs::Cutting::spaced_at, crate::proofs::Cutting::spaced_whole))]
pub fn spaced(alloc: Global, text: &str) -> Result<Text, OutOfMemory>
    ensures { IfOk result (λ t. t ≡ spaced text.now) }
{
    let mut spaced = String::new(alloc);
    let mut rest = text;
    while let Some((part, later)) = rest.split_once('~') {
        spaced.push_str(part)?;
        spaced.push(' ')?;
        rest = later;
    }
    spaced.push_str(rest)?;
    Ok(Text::from_string(spaced))
}
