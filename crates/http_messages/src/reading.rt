ghost use Rattle.std.specs.Prelude.{◌≡◌, ◌≤◌, true, length, if◌then◌else◌, IfOk};
ghost use Rattle.http_messages.specs.declared.reading.ReadFault.TheVariants as ReadFault;
ghost use Rattle.http_messages.specs.declared.reading.Block.TheVariants as block;
ghost use Rattle.http_messages.specs.Reading.{Reads, Counted, Same, weight, Grows, FoundBlock, HoldsBlock, FoundBody, Says, Lightens};

use crate::blocks::{MARK, MOST_HEAD, block_end_from, window};
use crate::fault::HeadFault;
use crate::item::Item;
use crate::message::read_message;
use links::Link;
use std::alloc::{AllocError, Global};
use streams::Failed;
use texts::OutOfMemory;

// The most bytes that one read asks for.
pub(crate) const PIECE: usize = 4_096;

/// Why nothing more can be read of a connection.
#[derive(Clone, Copy, Debug, PartialEq, Eq)]
pub enum ReadFault {
    Failed,
    OutOfMemory,
}

impl From<Failed> for ReadFault {
    ghost from_gives = { λ _ e. e ≡ ReadFault.Failed };

    fn from(_fault: Failed) -> Self {
        ReadFault::Failed
    }
}

impl From<AllocError> for ReadFault {
    ghost from_gives = { λ _ e. e ≡ ReadFault.OutOfMemory };

    fn from(_error: AllocError) -> Self {
        ReadFault::OutOfMemory
    }
}

impl From<OutOfMemory> for ReadFault {
    ghost from_gives = { λ _ e. e ≡ ReadFault.OutOfMemory };

    fn from(_error: OutOfMemory) -> Self {
        ReadFault::OutOfMemory
    }
}

/// What comes next over a connection.
#[derive(Debug, Drop)]
pub enum Got {
    /// Nothing: the bytes end between two messages.
    Ended,
    /// Nothing: the bytes end within a message.
    Cut,
    Came(Item),
}

// How a head block ends: `Found` has its length.
#[derive(Clone, Copy)]
pub(crate) enum Block {
    Ended,
    Cut,
    TooLarge,
    Found(usize),
}

/// Reads what comes next over a link, in pieces of any size. Bytes that were read and not used stay in
/// `held`, which is empty before the first call.
///
/// `Failed` comes only where the link met a fault, and `OutOfMemory` only where a message begins.
pub fn read_item<L: Link>(alloc: Global, link: &mut L, held: &mut Vec<u8>) -> Result<Got, ReadFault>
    ensures says { Reads Says held.old.items held.new.items (L.wire link.old) (L.wire link.new) result }
    ensures lightens { IfOk result (λ got. Lightens got (weight (L.reads link.old) held.old.items) (weight (L.reads link.new) held.new.items)) }
    ensures counted { Counted (L.faults link.old) (L.faults link.new) result }
{
    match read_block(link, held)? {
        Block::Ended => Ok(Got::Ended),
        Block::Cut => Ok(Got::Cut),
        Block::TooLarge => Ok(Got::Came(Item::refused(HeadFault::HeadTooLarge))),
        Block::Found(n) => read_message(alloc, link, held, n),
    }
}

// Reads until the head block is whole.
fn read_block<L: Link>(link: &mut L, held: &mut Vec<u8>) -> Result<Block, ReadFault>
    ensures found { Reads FoundBlock held.old.items held.new.items (L.wire link.old) (L.wire link.new) result }
    ensures holds { IfOk result (λ b. HoldsBlock b held.new.items) }
    ensures weight { IfOk result (λ _. weight (L.reads link.new) held.new.items ≤ weight (L.reads link.old) held.old.items) }
    ensures counted { Counted (L.faults link.old) (L.faults link.new) result }
{
    let mut start = 0;
    loop {
        if let Some(n) = block_end_from(window(held.as_slice()), start) {
            return Ok(Block::Found(n));
        }
        if held.len() >= MOST_HEAD {
            return Ok(Block::TooLarge);
        }
        start = held.len().saturating_sub(MARK - 1);
        match read_more(link, held) {
            Ok(true) => {}
            Ok(false) => return Ok(ended_block(held.is_empty())),
            Err(fault) => return Err(fault),
        }
    }
}

// How a block ends whose bytes end before it does.
fn ended_block(is_empty: bool) -> Block
    ensures { result ≡ (if is_empty then block.Ended else block.Cut) }
{
    if is_empty { Block::Ended } else { Block::Cut }
}

// Reads until so many bytes are held. Gives whether they are; else the bytes end before.
pub(crate) fn read_body<L: Link>(
    link: &mut L,
    held: &mut Vec<u8>,
    n: usize,
) -> Result<bool, ReadFault>
    ensures found { Reads (FoundBody n) held.old.items held.new.items (L.wire link.old) (L.wire link.new) result }
    ensures holds { IfOk result (λ whole. whole ≡ true → n ≤ length held.new.items) }
    ensures weight { IfOk result (λ _. weight (L.reads link.new) held.new.items ≤ weight (L.reads link.old) held.old.items) }
    ensures counted { Counted (L.faults link.old) (L.faults link.new) result }
{
    while held.len() < n {
        match read_more(link, held) {
            Ok(true) => {}
            Ok(false) => return Ok(false),
            Err(fault) => return Err(fault),
        }
    }
    Ok(true)
}

// Reads one piece more. Gives whether there was one; else the bytes end.
#[tactic(auto, using(crate::proofs::ReadingLaws::read_failed))]
fn read_more<L: Link>(link: &mut L, held: &mut Vec<u8>) -> Result<bool, ReadFault>
    ensures same { Reads (λ more. Same) held.old.items held.new.items (L.wire link.old) (L.wire link.new) result }
    ensures grows { IfOk result (λ more. Grows more held.old.items held.new.items (L.reads link.old) (L.reads link.new) (L.wire link.new)) }
    ensures weight { IfOk result (λ _. weight (L.reads link.new) held.new.items ≤ weight (L.reads link.old) held.old.items) }
    ensures counted { Counted (L.faults link.old) (L.faults link.new) result }
{
    let mut buf = [0; PIECE];
    let n = link.read(&mut buf)?;
    if n == 0 {
        return Ok(false);
    }
    let (piece, _) = buf.split_at(n);
    match held.extend_from_slice(piece) {
        Ok(()) => Ok(true),
        Err(_) => Err(ReadFault::OutOfMemory),
    }
}
