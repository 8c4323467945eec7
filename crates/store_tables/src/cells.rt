//! Values of a row: how each is read, and what numbers are written.

ghost use Rattle.std.specs.Prelude.{◌≡◌, ◌≤◌, [], pos, Some, IfOk, OnOk, IsTrue};
ghost use Rattle.sqlite_value.specs.Order.{column};
ghost use Rattle.sql_rows.specs.Tables.{name_at};
ghost use Rattle.keep_core.specs.Names.{is_name};
ghost use Rattle.web_address.specs.Address.{IsWebAddress};
ghost use Rattle.store_tables.specs.Cells.{number_in, place_in, text_in, named, auto_in, auto_number, reason_in, tree_in};

use crate::fault::StoreFault;
use crate::memo::Memo;
use keep_core::is_name;
use rule_core::{Auto, Reason, RuleNo};
use snap_tree::{NodeId, Text, Tree};
use sqlite::Row;
use std::alloc::Global;

/// A count as it is written.
///
/// # Errors
///
/// `Failed` where it is above the greatest number of a column.
pub fn column_number(count: u64) -> Result<i64, StoreFault>
    ensures { IfOk result (λ n. n ≡ pos count) }
{
    match i64::try_from(count) {
        Ok(number) => Ok(number),
        Err(_) => Err(StoreFault::Failed),
    }
}

/// A number from 0 to a greatest one.
pub fn number(row: &Row, at: usize, most: u64) -> Result<u64, StoreFault>
    ensures reads { IfOk result (λ n. number_in most (column row.now at) ≡ Some n) }
    ensures within { IfOk result (λ n. n ≤ most) }
{
    let number: u64 = row.get(at)?;
    if most < number {
        return Err(StoreFault::Failed);
    }
    Ok(number)
}

/// The number of a rule.
pub fn rule(row: &Row, at: usize) -> Result<RuleNo, StoreFault>
    ensures { IfOk result (λ r. number_in 65535 (column row.now at) ≡ Some r.0) }
{
    let number = number(row, at, 65_535)?;
    Ok(RuleNo(number as u16))
}

/// The number of a node.
pub fn node(row: &Row, at: usize) -> Result<NodeId, StoreFault>
    ensures { IfOk result (λ n. number_in 4294967295 (column row.now at) ≡ Some n.0) }
{
    let number = number(row, at, 4_294_967_295)?;
    Ok(NodeId(number as u32))
}

/// Fails where the number isn't this one.
pub fn place(row: &Row, at: usize, place: u64) -> Result<(), StoreFault>
    ensures { OnOk result (place_in place (column row.now at) ≡ Some place) }
{
    let number: u64 = row.get(at)?;
    if number != place {
        return Err(StoreFault::Failed);
    }
    Ok(())
}

/// A text.
pub fn text(row: &Row, at: usize) -> Result<Text, StoreFault>
    ensures { IfOk result (λ t. text_in (column row.now at) ≡ Some t) }
{
    let text: String = row.get(at)?;
    Ok(Text::from_string(text))
}

/// The name of a page or a user.
pub fn name(row: &Row, at: usize) -> Result<Text, StoreFault>
    ensures reads { IfOk result (λ t. named (name_at at row.now) ≡ Some t) }
    ensures is_name { IfOk result (λ t. IsTrue (is_name t)) }
{
    let text: String = row.get(at)?;
    let name = Text::from_string(text);
    if !is_name(&name) {
        return Err(StoreFault::Failed);
    }
    Ok(name)
}

/// The number that is written for an outcome.
pub fn auto_number(auto: Auto) -> i64
    ensures { result ≡ pos (auto_number auto) }
{
    match auto {
        Auto::Passed => 0,
        Auto::Failed => 1,
        Auto::CantTell => 2,
    }
}

/// An outcome.
pub fn auto(row: &Row, at: usize) -> Result<Auto, StoreFault>
    ensures { IfOk result (λ a. auto_in (column row.now at) ≡ Some a) }
{
    let number: u64 = row.get(at)?;
    match number {
        0 => Ok(Auto::Passed),
        1 => Ok(Auto::Failed),
        2 => Ok(Auto::CantTell),
        _ => Err(StoreFault::Failed),
    }
}

/// The reason of an outcome.
pub fn reason(row: &Row, at: usize) -> Result<Reason, StoreFault>
    ensures { IfOk result (λ r. reason_in (column row.now at) ≡ Some r) }
{
    let word: String = row.get(at)?;
    match Reason::from_word(word.as_str()) {
        Some(reason) => Ok(reason),
        None => Err(StoreFault::Failed),
    }
}

/// The tree of a snapshot.
pub fn tree(alloc: Global, memo: &mut Memo, row: &Row, at: usize) -> Result<Tree, StoreFault>
    ensures reads { IfOk result (λ t. tree_in (column row.now at) ≡ Some t) }
    ensures web_address { IfOk result (λ t. IsWebAddress t.address) }
    ensures no_langs { IfOk result (λ t. t.langs ≡ []) }
{
    let bytes: Vec<u8> = row.get(at)?;
    memo.read(alloc, bytes)
}
