ghost use Rattle.std.specs.Prelude.{◌≡◌, ◌<◌, ◌≤◌, ◌+◌, [], length, IfOk, OnOk, OnErr, vec_len, vec_capacity, slice_index_or};
ghost use Rattle.std.specs.Borrow.{sem};
ghost use Rattle.std.specs.Option.{option_copied};
ghost use Rattle.named_rows.specs.ByName.{at, put_row, put_rows, take_row, IsInOrder};
ghost use Rattle.named_rows.specs.Placed.{IsPlace};

use crate::place::{Named, Place, place_of};
use std::alloc::Global;
use std::marker::Model;
use texts::{OutOfMemory, Text};

/// A list of rows that have a name. Contracts see it as the list of the rows. Looking a name up, and what
/// changes rows by their names, ask that they stand in byte order of their names, and keep it.
#[derive(Debug, Drop)]
pub struct Rows<T> {
    rows: Vec<T>,
}

impl<T> Model for Rows<T> {
    ghost use Rattle.std.specs.Prelude.{List};

    ghost Value = { List T };

    ghost view = { λ r. r.rows.items };
}

impl<T: Named> Rows<T> {
    ghost use Rattle.named_rows.specs.RowLends.{lends_row};

    /// No rows. It takes no memory.
    pub fn new(alloc: Global) -> Self
        ensures { result ≡ [] }
    {
        Rows {
            rows: Vec::new(alloc),
        }
    }

    /// The rows of a vector, in its order.
    pub fn from_vec(rows: Vec<T>) -> Self
        ensures { result ≡ rows.items }
    {
        Rows { rows }
    }

    /// The rows as a vector, in their order.
    pub fn into_vec(self) -> Vec<T>
        ensures { result.items ≡ self }
    {
        self.rows
    }

    /// The rows as a slice.
    pub fn as_slice(&self) -> &[T]
        ensures { result.now ≡ self.now }
    {
        self.rows.as_slice()
    }

    /// The place of a name.
    pub fn place(&self, name: &Text) -> Place
        requires { IsInOrder T.name self.now }
        ensures { IsPlace T.name name.now self.now result }
    {
        place_of(self.rows.as_slice(), name)
    }

    /// The row of a name; None where no row has it.
    pub fn get(&self, name: &Text) -> Option<&T>
        requires { IsInOrder T.name self.now }
        ensures { option_copied result ≡ at T.name name.now self.now }
    {
        match self.place(name) {
            Place::Found(i) => Some(&self.rows[i]),
            Place::Vacant(_) => None,
        }
    }

    /// The row at a place, to change it. Its name is to stay.
    pub fn at_mut(&mut self, i: usize) -> &mut T
        requires { i < length self.old }
        ensures* writes_back { sem 𝓛 (lends_row T.row self.entry i result) }
        ensures value { result.now ≡ slice_index_or self.old i result.now }
    {
        &mut self.rows[i]
    }

    /// Puts a row in place of the one with its name, or where its name belongs. After a want of memory
    /// the rows are as before.
    pub fn put(&mut self, row: T) -> Result<(), OutOfMemory>
        requires { IsInOrder T.name self.old }
        ensures put { OnOk result (self.new ≡ put_row T.name row self.old) }
        ensures kept { OnErr result (self.new ≡ self.old) }
        ensures in_order { IsInOrder T.name self.new }
    {
        self.rows.reserve(1)?;
        put_with_room(&mut self.rows, row);
        Ok(())
    }

    /// Puts rows one after another. After a want of memory the rows are as before.
    pub fn put_all(&mut self, more: Vec<T>) -> Result<(), OutOfMemory>
        requires { IsInOrder T.name self.old }
        ensures put { OnOk result (self.new ≡ put_rows T.name more.items self.old) }
        ensures kept { OnErr result (self.new ≡ self.old) }
        ensures in_order { IsInOrder T.name self.new }
    {
        self.rows.reserve(more.len())?;
        put_each(&mut self.rows, more);
        Ok(())
    }

    /// Takes the row of a name out; without one nothing changes.
    #[tactic(auto, using(crate::proofs::Order::in_order_take))]
    pub fn take(&mut self, name: &Text)
        requires { IsInOrder T.name self.old }
        ensures taken { self.new ≡ take_row T.name name.now self.old }
        ensures in_order { IsInOrder T.name self.new }
    {
        if let Place::Found(i) = self.place(name) {
            self.rows.remove(i);
        }
    }
}

// Puts a row where there is room for one more.
#[tactic(auto, using(crate::proofs::Order::in_order_put))]
fn put_with_room<T: Named>(rows: &mut Vec<T>, row: T)
    requires in_order { IsInOrder T.name rows.old.items }
    requires room { vec_len rows.old < vec_capacity rows.old }
    ensures put { rows.new.items ≡ put_row T.name row rows.old.items }
    ensures in_order { IsInOrder T.name rows.new.items }
    ensures len { vec_len rows.new ≤ vec_len rows.old + 1 }
    ensures room { vec_capacity rows.old ≤ vec_capacity rows.new }
{
    match place_of(rows.as_slice(), row.name()) {
        Place::Found(i) => rows[i] = row,
        Place::Vacant(i) => {
            // It can't fail, since there is room.
            let _ = rows.insert(i, row);
        }
    }
}

// Puts rows one after another, where there is room for them all.
fn put_each<T: Named>(rows: &mut Vec<T>, more: Vec<T>)
    requires in_order { IsInOrder T.name rows.old.items }
    requires room { vec_len rows.old + vec_len more ≤ vec_capacity rows.old }
    ensures put { rows.new.items ≡ put_rows T.name more.items rows.old.items }
    ensures in_order { IsInOrder T.name rows.new.items }
{
    for row in more {
        put_with_room(rows, row);
    }
}
