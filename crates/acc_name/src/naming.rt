ghost use Rattle.std.specs.Prelude.{◌≡◌, ◌||◌, ◌≤◌, length, false, IfOk};
ghost use Rattle.std.specs.Option.{is_some};
ghost use Rattle.acc_tree.specs.Seen.{seen_row, seen};
ghost use Rattle.acc_name.specs.declared.named.How.TheVariants as how;
ghost use Rattle.acc_name.specs.declared.room.TheConstants.{MOST_NAME_BYTES};
ghost use Rattle.acc_name.specs.Hosts.{caption_of};
ghost use Rattle.acc_name.specs.Names.{asks_content, nothing_heard, said, own_text, named, name_of};
ghost use Rattle.acc_name.specs.Voices.{labelled_of};

use crate::captions::Caption;
use crate::clauses::{no_name, say};
use crate::following::{OnPage, labelled_of};
use crate::heard::Inner;
use crate::hosts::{caption_in, host_of};
use crate::named::{How, Name, NameSource};
use crate::room::{Nested, Room};
use crate::telling::spoken;
use crate::tidying::tidied;
use crate::told::Scope;
use crate::values::asks_content;
use acc_tree::{role, row_of, sight_of};
use aria_tables::Role;
use snap_tree::{NodeId, OutOfMemory, Row, Text, Tree};
use std::alloc::Global;

fn named(alloc: Global, source: NameSource, text: Text) -> Name
    ensures { result ≡ named source text }
{
    if text.is_empty() {
        no_name(alloc)
    } else {
        Name { text, source }
    }
}

// What a node says for its own name that asks those below it.
fn asking(alloc: Global, tree: &Tree, n: NodeId) -> Result<Name, OutOfMemory>
    ensures { IfOk result (λ name. name ≡ own_text (seen tree.now.trees) n) }
{
    let Some(sight) = sight_of(tree, n) else {
        return Ok(no_name(alloc));
    };
    let scope = Scope {
        node: n,
        hidden: false,
    };
    spoken(
        alloc,
        &OnPage { tree, scope },
        scope,
        Room::whole(),
        &mut Nested::whole(),
        How::Own,
        sight,
    )
}

// What a node says for its own name that asks nobody below it, nor anybody that it owns besides.
fn alone(
    alloc: Global,
    tree: &Tree,
    node: NodeId,
    row: &Row,
    role: Option<Role>,
) -> Result<Name, OutOfMemory>
    ensures { IfOk result (λ name. name ≡ said node false (labelled_of (seen tree.now.trees) node (seen_row row.now)) how.Own role (seen_row row.now) nothing_heard) }
{
    let scope = Scope {
        node,
        hidden: false,
    };
    let nested = &mut Nested::whole();
    let told = labelled_of(alloc, Room::whole(), nested, tree, node, row)?;
    let mut content = String::new(alloc);
    let nothing = Inner {
        chosen: &None,
        caption: Caption::Absent,
        is_blank: true,
    };
    let said = say(
        alloc,
        scope,
        &told,
        How::Own,
        role,
        row,
        nothing,
        0,
        &mut content,
    )?;
    Ok(Name {
        text: Text::from_string(content),
        source: said.source,
    })
}

// Whether a node asks those below it for its own name: it is named from content, or a child captions it.
fn asks_below(role: Option<Role>, row: &Row) -> bool
    ensures { result ≡ (asks_content how.Own role || is_some (caption_of (seen_row row.now))) }
{
    asks_content(How::Own, role) || caption_in(host_of(row)).is_some()
}

// What a node says for its own name. It asks those below it only where that can name it.
fn own_text(alloc: Global, tree: &Tree, n: NodeId) -> Result<Name, OutOfMemory>
    ensures { IfOk result (λ name. name ≡ own_text (seen tree.now.trees) n) }
{
    let Some(row) = row_of(tree, n) else {
        return Ok(no_name(alloc));
    };
    let role = role(tree, n);
    if asks_below(role, row) {
        asking(alloc, tree, n)
    } else {
        alone(alloc, tree, n, row, role)
    }
}

/// The accessible name of a node, and the clause that gave it.
///
/// A number that the tree doesn't hold has no name. It wants memory too where more than
/// [`MOST_NAME_BYTES`](crate::MOST_NAME_BYTES) bytes of text would be held at once, or where the `select`
/// elements within others say more than [`MOST_NESTED_BYTES`](crate::MOST_NESTED_BYTES) bytes.
pub fn name(alloc: Global, tree: &Tree, n: NodeId) -> Result<Name, OutOfMemory>
    ensures names { IfOk result (λ name. name ≡ name_of (seen tree.now.trees) n) }
    ensures fits { IfOk result (λ name. length name.text ≤ MOST_NAME_BYTES) }
{
    let Name { text, source } = own_text(alloc, tree, n)?;
    let text = tidied(alloc, text)?;
    Room::whole().less(text.len())?;
    Ok(named(alloc, source, text))
}
