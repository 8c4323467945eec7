ghost use Rattle.std.specs.Prelude.{◌≡◌, ◌≢◌, [], Err, IfOk, option_map};
ghost use Rattle.serde_json.specs.View.{view};
ghost use Rattle.web_address.specs.Address.{IsWebAddress};
ghost use Rattle.snap_json.specs.Faults.{Gives, Answers};
ghost use Rattle.snap_json.specs.Pages.{address_from, json_of, page_of, page_by_value, page_in, built, tree_in, sent_page, sent_page_of, sent_tree, kept_tree, within};

use crate::fault::{Field, SnapFault};
use crate::limits::{KEPT, Limits, SENT};
use crate::rows::{each_row, in_shape};
use crate::unread::Unread;
use crate::{fields, straight};
use serde_json::Value;
use snap_tree::{BuildFault, OutOfMemory, Raw, Text, Tree};
use std::alloc::Global;
use web_address::read_address;

/// Reads a snapshot without building its tree. A snapshot has at most 8,388,608 bytes, and its address
/// at most 65,536. Of several faults the first is answered: TooLong, NotJson, Shape with place 0,
/// BadUrl, then Shape with the place of the first bad row and its first bad field.
#[tactic(auto, using(crate::proofs::Answering::answers))]
pub fn read_raw(alloc: Global, bytes: &[u8]) -> Result<Raw, SnapFault>
    ensures exact { Answers result (sent_page bytes.now) }
    ensures web_address { IfOk result (λ raw. IsWebAddress raw.address) }
{
    page_in(alloc, SENT, bytes)
}

/// Reads a snapshot that is a JSON value, such as one within a longer text, without building its tree.
/// The faults are those of `read_raw` from Shape with place 0 on, in the same order.
#[tactic(auto, using(crate::proofs::Answering::answers))]
pub fn raw_of(alloc: Global, value: &Value) -> Result<Raw, SnapFault>
    ensures exact { Answers result (sent_page_of (view value.now)) }
    ensures web_address { IfOk result (λ raw. IsWebAddress raw.address) }
{
    page_of(alloc, SENT, value)
}

/// Reads a snapshot and builds its tree, with no language subtag. The faults are those of `read_raw`, and
/// last the first one of the rows, which `Tree::build` names.
#[tactic(auto, using(crate::proofs::Answering::answers))]
pub fn read_snapshot(alloc: Global, bytes: &[u8]) -> Result<Tree, SnapFault>
    ensures exact { Answers result (sent_tree bytes.now) }
    ensures web_address { IfOk result (λ tree. IsWebAddress tree.address) }
    ensures no_langs { IfOk result (λ tree. tree.langs ≡ []) }
{
    tree_in(alloc, SENT, bytes)
}

/// Reads a snapshot that was written and kept, as `read_snapshot` does but with no limit on the bytes
/// or on the address. It never answers TooLong.
#[tactic(auto, using(crate::proofs::Answering::answers))]
pub fn read_kept(alloc: Global, bytes: &[u8]) -> Result<Tree, SnapFault>
    ensures exact { Answers result (kept_tree bytes.now) }
    ensures web_address { IfOk result (λ tree. IsWebAddress tree.address) }
    ensures no_langs { IfOk result (λ tree. tree.langs ≡ []) }
    ensures never_too_long { result ≢ Err SnapFault.TooLong }
{
    tree_in(alloc, KEPT, bytes)
}

/// The tree that bytes are.
#[tactic(auto, unfolding(crate::specs::Pages::tree_in))]
fn tree_in(alloc: Global, limits: Limits, bytes: &[u8]) -> Result<Tree, SnapFault>
    ensures exact { Gives result (tree_in limits bytes.now) }
    ensures web_address { IfOk result (λ tree. IsWebAddress tree.address) }
    ensures no_langs { IfOk result (λ tree. tree.langs ≡ []) }
{
    build(alloc, page_in(alloc, limits, bytes)?)
}

fn build(alloc: Global, page: Raw) -> Result<Tree, SnapFault>
    ensures exact { Gives result (built page) }
    ensures address { IfOk result (λ tree. tree.address ≡ page.address) }
    ensures no_langs { IfOk result (λ tree. tree.langs ≡ []) }
{
    match Tree::build(alloc, page) {
        Ok(tree) => Ok(tree),
        Err(BuildFault::Tree(fault)) => Err(SnapFault::Tree(fault)),
        Err(BuildFault::OutOfMemory) => Err(SnapFault::OutOfMemory),
    }
}

/// The page that bytes are.
#[tactic(auto, unfolding(crate::specs::Pages::page_in))]
fn page_in(alloc: Global, limits: Limits, bytes: &[u8]) -> Result<Raw, SnapFault>
    ensures exact { Gives result (page_in limits bytes.now) }
    ensures web_address { IfOk result (λ raw. IsWebAddress raw.address) }
{
    if !within(limits.snapshot, bytes.len()) {
        return Err(SnapFault::TooLong);
    }
    match straight::page(alloc, limits, bytes) {
        Ok(page) => Ok(page),
        Err(Unread::OutOfMemory) => Err(SnapFault::OutOfMemory),
        Err(Unread::Unusual) => page_by_value(alloc, limits, bytes),
    }
}

/// The same, by the JSON value that the bytes are.
fn page_by_value(alloc: Global, limits: Limits, bytes: &[u8]) -> Result<Raw, SnapFault>
    ensures exact { Gives result (page_by_value limits bytes.now) }
    ensures web_address { IfOk result (λ raw. IsWebAddress raw.address) }
{
    match json_of(alloc, bytes)? {
        Some(value) => page_of(alloc, limits, &value),
        None => Err(SnapFault::NotJson),
    }
}

/// The JSON value that bytes are; None where they aren't UTF-8, or aren't JSON nested at most 127 deep, or
/// hold a number too great for a 64-bit float or an escape of a lone surrogate.
#[tactic(auto, unfolding(crate::specs::Pages::json_of))]
pub fn json_of(alloc: Global, bytes: &[u8]) -> Result<Option<Value>, OutOfMemory>
    ensures { IfOk result (λ v. option_map view v ≡ json_of bytes.now) }
{
    match Value::from_slice(alloc, bytes) {
        Ok(value) => Ok(Some(value)),
        Err(error) if error.is_memory() => Err(OutOfMemory),
        Err(_) => Ok(None),
    }
}

/// The page that a JSON value is.
#[tactic(auto, unfolding(crate::specs::Pages::page_of))]
fn page_of(alloc: Global, limits: Limits, page: &Value) -> Result<Raw, SnapFault>
    ensures exact { Gives result (page_of limits (view page.now)) }
    ensures web_address { IfOk result (λ raw. IsWebAddress raw.address) }
{
    in_shape(0, Field::Top, page.as_object())?;
    let sent = in_shape(0, Field::Url, fields::lent_text(page.get("url")))?;
    let nodes = page.get("nodes").and_then(Value::as_array);
    let nodes = in_shape(0, Field::Nodes, nodes)?;
    let address = address_from(alloc, limits.address, sent)?;
    let rows = each_row(alloc, nodes.as_slice())?;
    Ok(Raw { address, rows })
}

pub(crate) fn address_from(
    alloc: Global,
    limit: Option<usize>,
    text: &str,
) -> Result<Text, SnapFault>
    ensures exact { Gives result (address_from limit text.now) }
    ensures web_address { IfOk result IsWebAddress }
{
    if !within(limit, text.len()) {
        return Err(SnapFault::BadUrl);
    }
    match read_address(alloc, text)? {
        Some(address) => Ok(Text::from_string(address)),
        None => Err(SnapFault::BadUrl),
    }
}

fn within(limit: Option<usize>, len: usize) -> bool
    ensures { result ≡ within limit len }
{
    match limit {
        Some(limit) => len <= limit,
        None => true,
    }
}
