ghost use Rattle.std.specs.Prelude.{◌≡◌, ◌++◌, [], ◌∷◌, map, if◌then◌else◌, false, IfOk, OnOk};
ghost use Rattle.std.specs.Option.{option_map_or};
ghost use Rattle.serde_json.specs.View.{view};
ghost use Rattle.serde_json.specs.Written.{compact_text};
ghost use Rattle.http_replies.specs.NameList.{source_word, is_told, is_listed, word_at, name_data, names_among, names_data};

use crate::members::{put_number, put_word};
use acc_name::{NameSource, name};
use acc_tree::{included, role};
use aria_tables::{Role, same_role};
use serde_json::{Map, Value, put};
use snap_tree::{NodeId, OutOfMemory, Row, Tree};
use std::alloc::Global;

// The body of the reply that lists the names of a page.
#[tactic(auto, using(crate::proofs::NoFloats::names_have_no_float))]
pub(crate) fn names_body(alloc: Global, tree: &Tree) -> Result<Vec<u8>, OutOfMemory>
    ensures { IfOk result (λ b. b.items ≡ compact_text (names_data tree.now.trees)) }
{
    let value = names_value(alloc, tree)?;
    Ok(value.to_vec(alloc)?)
}

#[tactic(auto, unfolding(crate::specs::NameList::names_data))]
fn names_value(alloc: Global, tree: &Tree) -> Result<Value, OutOfMemory>
    ensures { IfOk result (λ v. view v ≡ names_data tree.now.trees) }
{
    let names = names_among(alloc, tree, tree.rows())?;
    let mut members = Map::new(alloc);
    put(&mut members, alloc, "names", Value::Array(names))?;
    Ok(Value::Object(members))
}

// Those of some rows of a page that are listed, in their order.
fn names_among(alloc: Global, tree: &Tree, rows: &[Row]) -> Result<Vec<Value>, OutOfMemory>
    ensures { IfOk result (λ v. map view v.items ≡ names_among tree.now.trees rows.now) }
{
    let mut names = Vec::new(alloc);
    for row in rows {
        push_name(alloc, &mut names, tree, row.id)?;
    }
    Ok(names)
}

// Adds a node, where it is listed.
fn push_name(
    alloc: Global,
    names: &mut Vec<Value>,
    tree: &Tree,
    n: NodeId,
) -> Result<(), OutOfMemory>
    ensures { OnOk result (map view names.new.items
        ≡ map view names.old.items ++ (if is_listed tree.now.trees n then name_data tree.now.trees n ∷ [] else [])) }
{
    if !is_listed(tree, n) {
        return Ok(());
    }
    let value = name_value(alloc, tree, n)?;
    names.push(value)?;
    Ok(())
}

// Whether a node is in the accessibility tree and has a role other than generic.
fn is_listed(tree: &Tree, n: NodeId) -> bool
    ensures { result ≡ is_listed tree.now.trees n }
{
    included(tree, n) && is_told(role(tree, n))
}

fn is_told(role: Option<Role>) -> bool
    ensures { result ≡ option_map_or is_told role false }
{
    match role {
        Some(role) => !same_role(role, Role::Generic),
        None => false,
    }
}

#[tactic(auto, unfolding(crate::specs::NameList::name_data))]
fn name_value(alloc: Global, tree: &Tree, n: NodeId) -> Result<Value, OutOfMemory>
    ensures { IfOk result (λ v. view v ≡ name_data tree.now.trees n) }
{
    let said = name(alloc, tree, n)?;
    let mut members = Map::new(alloc);
    put_word(&mut members, alloc, "name", said.text.as_str())?;
    put_number(&mut members, alloc, "node", u64::from(n.0))?;
    put_word(&mut members, alloc, "role", word_at(role(tree, n)))?;
    put_word(&mut members, alloc, "source", source_word(said.source))?;
    Ok(Value::Object(members))
}

// The word of a role, empty for none.
fn word_at(role: Option<Role>) -> &'static str
    ensures { result.now ≡ word_at role }
{
    match role {
        Some(role) => role.word(),
        None => "",
    }
}

fn source_word(source: NameSource) -> &'static str
    ensures { result.now ≡ source_word source }
{
    match source {
        NameSource::Nothing => "Nothing",
        NameSource::LabelledBy => "LabelledBy",
        NameSource::AriaLabel => "AriaLabel",
        NameSource::HostLabel => "HostLabel",
        NameSource::HostText => "HostText",
        NameSource::Content => "Content",
        NameSource::Title => "Title",
        NameSource::Placeholder => "Placeholder",
    }
}
