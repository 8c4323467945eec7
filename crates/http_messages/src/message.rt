ghost use Rattle.std.specs.Prelude.{◌≡◌, ◌<◌, ◌≤◌, length, take, drop, vec_len, IfOk, OnErr};
ghost use Rattle.http_messages.specs.Reading.{Reads, ReadsOrLoses, Counted, weight};
ghost use Rattle.http_messages.specs.Messages.{SaysFrom, SaysBody};

use crate::fault::HeadFault;
use crate::framing::body_length;
use crate::head::Head;
use crate::item::{Item, Message, Sent};
use crate::parse::read_head;
use crate::reading::{Got, ReadFault, read_body};
use links::Link;
use std::alloc::Global;
use std::mem;
use texts::{List, OutOfMemory};

// Reads the message whose head block is held, and so many bytes long.
pub(crate) fn read_message<L: Link>(
    alloc: Global,
    link: &mut L,
    held: &mut Vec<u8>,
    n: usize,
) -> Result<Got, ReadFault>
    requires some { 0 < n }
    requires held { n ≤ length held.old.items }
    ensures says { Reads (SaysFrom n) held.old.items held.new.items (L.wire link.old) (L.wire link.new) result }
    ensures weight { IfOk result (λ _. weight (L.reads link.new) held.new.items < weight (L.reads link.old) held.old.items) }
    ensures counted { Counted (L.faults link.old) (L.faults link.new) result }
{
    let block = take_front(held, n)?;
    let Some(head) = read_head(alloc, block.as_slice())? else {
        return Ok(Got::Came(Item::refused(HeadFault::BadHead)));
    };
    match body_length(&head) {
        Ok(length) => read_whole(link, held, head, length as usize),
        Err(fault) => Ok(Got::Came(Item::refused(fault))),
    }
}

// Reads the body of a head, of that length.
fn read_whole<L: Link>(
    link: &mut L,
    held: &mut Vec<u8>,
    head: Head,
    n: usize,
) -> Result<Got, ReadFault>
    ensures says { ReadsOrLoses (SaysBody head n) held.old.items held.new.items (L.wire link.old) (L.wire link.new) result }
    ensures weight { IfOk result (λ _. weight (L.reads link.new) held.new.items ≤ weight (L.reads link.old) held.old.items) }
    ensures counted { Counted (L.faults link.old) (L.faults link.new) result }
{
    let whole = read_body(link, held, n)?;
    if !whole {
        return Ok(Got::Cut);
    }
    let body = List::from_vec(take_front(held, n)?);
    let closes = head.closes();
    Ok(Got::Came(Item {
        sent: Sent::Asked(Message { head, body }),
        closes,
    }))
}

// Takes so many bytes from the front. Where memory is wanted, nothing is taken.
fn take_front(held: &mut Vec<u8>, n: usize) -> Result<Vec<u8>, OutOfMemory>
    requires { n ≤ length held.old.items }
    ensures front { IfOk result (λ front. front.items ≡ take n held.old.items) }
    ensures rest { IfOk result (λ _. held.new.items ≡ drop n held.old.items) }
    ensures kept { OnErr result (held.new.items ≡ held.old.items) }
{
    let rest = held.split_off(n)?;
    Ok(mem::replace(held, rest))
}
