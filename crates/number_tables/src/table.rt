ghost use Rattle.std.specs.Prelude.{◌≡◌, ◌<◌, ℕ, Bool, not, slice_set, vec_len, Some, None, IfOk, OnOk};
ghost use Rattle.std.specs.BTreeMap.{get};
ghost use Rattle.std.specs.Option.{is_some};
ghost use Rattle.std.specs.Ordering.{nat_cmp};
ghost use Rattle.number_tables.specs.Tables.{at, Puts, PutsFar};

use std::alloc::Global;
use std::collections::BTreeMap;
use texts::OutOfMemory;

// The numbers of a page are mostly below so many times the count of its nodes.
const SPREAD: usize = 2;

/// At most one value for each number: in slots for numbers up to some, and in a map from there on. To fill and to ask
/// slots takes a small part of what a map takes.
#[derive(Drop)]
pub struct NumberTable<T> {
    near: Vec<Option<T>>,
    far: BTreeMap<u32, T>,
}

fn put_near<T: Copy>(near: &mut Vec<Option<T>>, slot: usize, value: T)
    requires { slot < vec_len near.old }
    ensures { near.new.items ≡ slice_set near.old.items slot (Some value) }
{
    near[slot] = Some(value);
}

fn put_far<T: Copy>(far: &mut BTreeMap<u32, T>, number: u32, value: T) -> Result<bool, OutOfMemory>
    ensures put { OnOk result (PutsFar far.old far.new number value) }
    ensures vacant { IfOk result (λ vacant. vacant ≡ not (is_some (get nat_cmp far.old number))) }
{
    if far.contains_key(&number) {
        return Ok(false);
    }
    far.insert(number, value)?;
    Ok(true)
}

impl<T: Copy> NumberTable<T> {
    /// A table of no value, with a slot for each number below twice a count, and for that one. Fails only for want of memory.
    pub fn with_room(alloc: Global, count: usize) -> Result<Self, OutOfMemory>
        ensures { IfOk result (λ table. (n : ℕ) → at table n ≡ None) }
    {
        let mut near = Vec::new(alloc);
        near.resize(count.saturating_mul(SPREAD).saturating_add(1), None)?;
        Ok(NumberTable {
            near,
            far: BTreeMap::new(alloc),
        })
    }

    /// The value of a number; None where it has none.
    pub fn at(&self, number: u32) -> Option<T>
        ensures { result ≡ at self.now number }
    {
        match self.near.get(number as usize) {
            Some(slot) => *slot,
            None => self.far.get(&number).copied(),
        }
    }

    /// Gives a number a value, unless it has one, which then stays: whether it had none. Fails only for want of memory,
    /// and then its number may have the value or not.
    pub fn put(&mut self, number: u32, value: T) -> Result<bool, OutOfMemory>
        ensures put { OnOk result (Puts self.old self.new number value) }
        ensures vacant { IfOk result (λ vacant. vacant ≡ not (is_some (at self.old number))) }
    {
        let slot = number as usize;
        match self.near.get(slot).copied() {
            Some(Some(_)) => Ok(false),
            Some(None) => {
                put_near(&mut self.near, slot, value);
                Ok(true)
            }
            None => put_far(&mut self.far, number, value),
        }
    }
}
