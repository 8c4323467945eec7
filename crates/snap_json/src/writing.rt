ghost use Rattle.std.specs.Prelude.{◌≡◌, ◌≤◌, [], ◌∷◌, ◌++◌, length, codes, map, Ok, ◌<◌, ◌^◌, Some, IfOk, IfSome, OnOk};
ghost use Rattle.std.specs.List.{AllByRecursion};
ghost use Rattle.json.specs.Token.{key, string, null};
ghost use Rattle.serde_json.specs.Data.{array, object};
ghost use Rattle.serde_json.specs.View.{items_of};
ghost use Rattle.serde_json.specs.Written.{compact_text};
ghost use Rattle.snap_json.specs.Small.{IsSmall};
ghost use Rattle.snap_tree.specs.Trees.{rows_of, with_langs};
ghost use Rattle.web_address.specs.Address.{IsWebAddress};
ghost use Rattle.snap_json.specs.Pages.{json_of, kept_tree, sent_tree};
ghost use Rattle.snap_json.specs.Tokens.{tokens_of};
ghost use Rattle.snap_json.specs.Written.{letters, space_name, number_data, parent_data, attr_data, element_data, words_data, row_data, page_data, snapshot_text};

use crate::limits::{MOST_ADDRESS_BYTES, MOST_SNAPSHOT_BYTES};
use json::Writer;
use snap_tree::{Attr, Body, Facts, List, NodeId, OutOfMemory, Row, Space, Text, Tree};
use std::alloc::Global;

/// Writes a tree as a snapshot: compact JSON, the keys of each object in byte order. The list of language
/// subtags isn't written.
///
/// Where the address is a web address, `read_kept` reads the tree back, with no language subtag; and so does
/// `read_snapshot`, where the bytes number at most 8,388,608 and the address has at most 65,536.
#[tactic(auto, using(crate::proofs::ReadTree::kept_back, crate::proofs::ReadTree::sent_back))]
pub fn write_snapshot(alloc: Global, tree: &Tree) -> Result<Vec<u8>, OutOfMemory>
    ensures text { IfOk result
        (λ b. b.items ≡ snapshot_text tree.now.address (rows_of tree.now.trees)) }
    ensures kept { IfOk result
        (λ b. IsWebAddress tree.now.address → kept_tree b.items ≡ Ok (with_langs tree.now [])) }
    ensures sent { IfOk result
        (λ b. IsWebAddress tree.now.address → length b.items ≤ MOST_SNAPSHOT_BYTES
        → length tree.now.address ≤ MOST_ADDRESS_BYTES → sent_tree b.items ≡ Ok (with_langs tree.now [])) }
{
    page_text(alloc, tree.address(), tree.rows())
}

/// The bytes of a page.
#[tactic(auto, using(crate::proofs::WrittenTokens::page_print, crate::proofs::WrittenTokens::page_read))]
fn page_text(alloc: Global, address: &Text, rows: &[Row]) -> Result<Vec<u8>, OutOfMemory>
    ensures text { IfOk result (λ b. b.items ≡ compact_text (page_data address.now rows.now)) }
    ensures json { IfOk result (λ b. json_of b.items ≡ Some (page_data address.now rows.now)) }
    ensures small { OnOk result (AllByRecursion IsSmall rows.now) }
{
    let mut writer = Writer::new(Vec::new(alloc));
    put_page(&mut writer, address, rows)?;
    Ok(writer.into_inner())
}

#[tactic(auto, unfolding(crate::specs::Written::page_data))]
fn put_page(writer: &mut Writer, address: &Text, rows: &[Row]) -> Result<(), OutOfMemory>
    ensures before { OnOk result (writer.new.before ≡ writer.old.before) }
    ensures tokens { OnOk result (writer.new.tokens
        ≡ writer.old.tokens ++ tokens_of (page_data address.now rows.now)) }
    ensures small { OnOk result (AllByRecursion IsSmall rows.now) }
{
    writer.begin_object()?;
    writer.key("nodes")?;
    put_rows(writer, rows)?;
    put_text(writer, "url", address.as_str())?;
    writer.end_object()?;
    Ok(())
}

/// Writes the list of some rows.
fn put_rows(writer: &mut Writer, rows: &[Row]) -> Result<(), OutOfMemory>
    ensures before { OnOk result (writer.new.before ≡ writer.old.before) }
    ensures tokens { OnOk result (writer.new.tokens
        ≡ writer.old.tokens ++ tokens_of (array (items_of (map row_data rows.now)))) }
    ensures small { OnOk result (AllByRecursion IsSmall rows.now) }
{
    writer.begin_array()?;
    for row in rows {
        put_row(writer, row)?;
    }
    writer.end_array()?;
    Ok(())
}

#[tactic(auto, unfolding(crate::specs::Written::row_data))]
fn put_row(writer: &mut Writer, row: &Row) -> Result<(), OutOfMemory>
    ensures before { OnOk result (writer.new.before ≡ writer.old.before) }
    ensures tokens { OnOk result (writer.new.tokens
        ≡ writer.old.tokens ++ tokens_of (row_data row.now)) }
    ensures small { OnOk result (IsSmall row.now) }
{
    match row.body.get() {
        Body::Element { space, tag, attrs } => put_element(writer, row, *space, tag, attrs),
        Body::Words { text } => put_words(writer, row, text),
    }
}

fn put_element(
    writer: &mut Writer,
    row: &Row,
    space: Space,
    tag: &Text,
    attrs: &List<Attr>,
) -> Result<(), OutOfMemory>
    ensures before { OnOk result (writer.new.before ≡ writer.old.before) }
    ensures tokens { OnOk result (writer.new.tokens
        ≡ writer.old.tokens ++ tokens_of (object (element_data row.now space tag.now attrs.now))) }
    ensures small { OnOk result (IsSmall row.now) }
{
    writer.begin_object()?;
    writer.key("attrs")?;
    put_attrs(writer, attrs.as_slice())?;
    put_text(writer, "f", letters(row.facts))?;
    put_number(writer, "n", row.id)?;
    put_text(writer, "ns", space_name(space))?;
    put_parent(writer, row.parent)?;
    put_text(writer, "tag", tag.as_str())?;
    writer.end_object()?;
    Ok(())
}

fn put_words(writer: &mut Writer, row: &Row, text: &Text) -> Result<(), OutOfMemory>
    ensures before { OnOk result (writer.new.before ≡ writer.old.before) }
    ensures tokens { OnOk result (writer.new.tokens
        ≡ writer.old.tokens ++ tokens_of (object (words_data row.now text.now))) }
    ensures small { OnOk result (IsSmall row.now) }
{
    writer.begin_object()?;
    put_text(writer, "f", letters(row.facts))?;
    put_number(writer, "n", row.id)?;
    put_parent(writer, row.parent)?;
    put_text(writer, "text", text.as_str())?;
    writer.end_object()?;
    Ok(())
}

/// Writes a member whose value is a text.
fn put_text(writer: &mut Writer, name: &str, text: &str) -> Result<(), OutOfMemory>
    ensures before { OnOk result (writer.new.before ≡ writer.old.before) }
    ensures tokens { OnOk result (writer.new.tokens
        ≡ writer.old.tokens ++ (key name.now ∷ string text.now ∷ [])) }
{
    writer.key(name)?;
    writer.string(text)?;
    Ok(())
}

/// Writes a member whose value is a number.
fn put_number(writer: &mut Writer, name: &str, number: NodeId) -> Result<(), OutOfMemory>
    ensures before { OnOk result (writer.new.before ≡ writer.old.before) }
    ensures tokens { OnOk result (writer.new.tokens
        ≡ writer.old.tokens ++ (key name.now ∷ tokens_of (number_data number))) }
    ensures fits { number.0 < 2 ^ 32 }
{
    writer.key(name)?;
    writer.u64(u64::from(number.0))?;
    Ok(())
}

/// Writes the member that names the parent.
fn put_parent(writer: &mut Writer, parent: Option<NodeId>) -> Result<(), OutOfMemory>
    ensures before { OnOk result (writer.new.before ≡ writer.old.before) }
    ensures tokens { OnOk result (writer.new.tokens
        ≡ writer.old.tokens ++ (key (codes "p") ∷ tokens_of (parent_data parent))) }
    ensures fits { IfSome parent (λ p. p.0 < 2 ^ 32) }
{
    match parent {
        None => put_null(writer, "p"),
        Some(parent) => put_number(writer, "p", parent),
    }
}

/// Writes a member whose value is null.
fn put_null(writer: &mut Writer, name: &str) -> Result<(), OutOfMemory>
    ensures before { OnOk result (writer.new.before ≡ writer.old.before) }
    ensures tokens { OnOk result (writer.new.tokens
        ≡ writer.old.tokens ++ (key name.now ∷ null ∷ [])) }
{
    writer.key(name)?;
    writer.null()?;
    Ok(())
}

/// Writes the list of some attributes.
fn put_attrs(writer: &mut Writer, attrs: &[Attr]) -> Result<(), OutOfMemory>
    ensures before { OnOk result (writer.new.before ≡ writer.old.before) }
    ensures tokens { OnOk result (writer.new.tokens
        ≡ writer.old.tokens ++ tokens_of (array (items_of (map attr_data attrs.now)))) }
{
    writer.begin_array()?;
    for attr in attrs {
        put_attr(writer, attr)?;
    }
    writer.end_array()?;
    Ok(())
}

/// Writes an attribute, as the pair of its name and its value.
fn put_attr(writer: &mut Writer, attr: &Attr) -> Result<(), OutOfMemory>
    ensures before { OnOk result (writer.new.before ≡ writer.old.before) }
    ensures tokens { OnOk result (writer.new.tokens
        ≡ writer.old.tokens ++ tokens_of (attr_data attr.now)) }
{
    writer.begin_array()?;
    writer.string(attr.name.as_str())?;
    writer.string(attr.value.as_str())?;
    writer.end_array()?;
    Ok(())
}

fn space_name(space: Space) -> &'static str
    ensures { result.now ≡ space_name space }
{
    match space {
        Space::Html => "html",
        Space::Svg => "svg",
        Space::Other => "other",
    }
}

/// The letters of facts.
fn letters(facts: Facts) -> &'static str
    ensures { result.now ≡ letters facts }
{
    match (
        facts.rendered,
        facts.visible,
        facts.focusable,
        facts.tabbable,
    ) {
        (true, true, true, true) => "rvft",
        (true, true, true, false) => "rvf",
        (true, true, false, true) => "rvt",
        (true, true, false, false) => "rv",
        (true, false, true, true) => "rft",
        (true, false, true, false) => "rf",
        (true, false, false, true) => "rt",
        (true, false, false, false) => "r",
        (false, true, true, true) => "vft",
        (false, true, true, false) => "vf",
        (false, true, false, true) => "vt",
        (false, true, false, false) => "v",
        (false, false, true, true) => "ft",
        (false, false, true, false) => "f",
        (false, false, false, true) => "t",
        (false, false, false, false) => "",
    }
}
