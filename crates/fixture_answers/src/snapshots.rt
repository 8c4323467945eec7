//! What is said of bytes as a snapshot.

use fixture_sketches::Trouble;
use serde_json::Value;
use snap_json::{SnapFault, raw_of, read_kept, read_raw, read_snapshot, rows_of, write_snapshot};
use snap_tree::{List, Raw, Row, Tree};
use std::alloc::Global;

/// What is said of bytes that are sent: as a snapshot, as a list of rows, as a page, as a snapshot that was kept; or
/// how the page that they are is written.
pub fn read(alloc: Global, bytes: &[u8], word: &str) -> Result<String, Trouble> {
    match word {
        "sent" => sent(alloc, bytes),
        "rows" => rows(alloc, bytes),
        "built" => said(alloc, read_snapshot(alloc, bytes).err()),
        "kept" => said(alloc, read_kept(alloc, bytes).err()),
        "written" => written(alloc, bytes),
        _ => Err(Trouble::NotInForm),
    }
}

// A fault as it is printed; `ok` where there is none.
fn said(alloc: Global, fault: Option<SnapFault>) -> Result<String, Trouble> {
    match fault {
        None => Ok(String::from_str(alloc, "ok")?),
        Some(fault) => Ok(format!(in alloc; "{fault}")?),
    }
}

fn value_of(alloc: Global, bytes: &[u8]) -> Option<Value> {
    match str::from_utf8(bytes) {
        Ok(text) => Value::from_str(alloc, text).ok(),
        Err(_) => None,
    }
}

// How many bytes are read as a value too.
const MOST_READ_TWICE: usize = 100_000;

// What is said of a snapshot as bytes, and of the JSON value that they are where that is something else and they aren't
// very many.
fn sent(alloc: Global, bytes: &[u8]) -> Result<String, Trouble> {
    let of_bytes = said(alloc, read_raw(alloc, bytes).err())?;
    if bytes.len() > MOST_READ_TWICE {
        return Ok(of_bytes);
    }
    let of_value = match value_of(alloc, bytes) {
        Some(value) => said(alloc, raw_of(alloc, &value).err())?,
        None => return Ok(of_bytes),
    };
    if of_bytes.as_str() == of_value.as_str() {
        return Ok(of_bytes);
    }
    Ok(format!(in alloc; "{of_bytes}, but as a value {of_value}")?)
}

fn rows(alloc: Global, bytes: &[u8]) -> Result<String, Trouble> {
    match value_of(alloc, bytes) {
        Some(value) => said(alloc, rows_of(alloc, &value).err()),
        None => Ok(String::from_str(alloc, "no value")?),
    }
}

// A way in which the page that bytes are is read.
#[derive(Clone, Copy)]
enum Way {
    Copied,
    // From what is written of it, as it is sent or as it is kept.
    Again,
    Kept,
    // From the JSON value that the bytes are, whole or by its rows.
    Value,
    Rows,
}

static WAYS: [Way; 5] = [Way::Copied, Way::Again, Way::Kept, Way::Value, Way::Rows];

fn read_by(
    alloc: Global,
    tree: &Tree,
    written: &str,
    bytes: &[u8],
    way: Way,
) -> Result<Tree, Trouble> {
    match way {
        Way::Copied => Ok(tree.copy()?),
        Way::Again => tree_of(read_snapshot(alloc, written.as_bytes())),
        Way::Kept => tree_of(read_kept(alloc, written.as_bytes())),
        Way::Value => by_value(alloc, bytes, false),
        Way::Rows => by_value(alloc, bytes, true),
    }
}

// How the page is written that bytes are, read in each way; the first one that differs is shown behind the first.
fn written(alloc: Global, bytes: &[u8]) -> Result<String, Trouble> {
    let tree = tree_of(read_snapshot(alloc, bytes))?;
    let first = written_of(alloc, &tree)?;
    for way in WAYS.as_slice() {
        let read = read_by(alloc, &tree, first.as_str(), bytes, *way)?;
        let other = written_of(alloc, &read)?;
        if other.as_str() != first.as_str() {
            return Ok(format!(in alloc; "{first}, but otherwise {other}")?);
        }
    }
    Ok(first)
}

fn tree_of(read: Result<Tree, SnapFault>) -> Result<Tree, Trouble> {
    match read {
        Ok(tree) => Ok(tree),
        Err(SnapFault::OutOfMemory) => Err(Trouble::OutOfMemory),
        Err(_) => Err(Trouble::NoPage),
    }
}

fn written_of(alloc: Global, tree: &Tree) -> Result<String, Trouble> {
    let bytes = write_snapshot(alloc, tree)?;
    match str::from_utf8(bytes.as_slice()) {
        Ok(text) => Ok(String::from_str(alloc, text)?),
        Err(_) => Err(Trouble::NotInForm),
    }
}

// The page of the JSON value that bytes are, or of its rows by themselves.
fn by_value(alloc: Global, bytes: &[u8], is_by_rows: bool) -> Result<Tree, Trouble> {
    let Some(value) = value_of(alloc, bytes) else {
        return Err(Trouble::NotInForm);
    };
    let Ok(raw) = raw_of(alloc, &value) else {
        return Err(Trouble::NoPage);
    };
    let Raw { address, rows } = raw;
    if is_by_rows {
        let rows = rows_by_themselves(alloc, &value)?;
        return built(alloc, Raw { address, rows });
    }
    built(alloc, Raw { address, rows })
}

fn rows_by_themselves(alloc: Global, value: &Value) -> Result<List<Row>, Trouble> {
    let Some(nodes) = value.get("nodes") else {
        return Err(Trouble::NoPage);
    };
    match rows_of(alloc, nodes) {
        Ok(rows) => Ok(rows),
        Err(_) => Err(Trouble::NoPage),
    }
}

fn built(alloc: Global, raw: Raw) -> Result<Tree, Trouble> {
    match Tree::build(alloc, raw) {
        Ok(tree) => Ok(tree),
        Err(_) => Err(Trouble::NoPage),
    }
}
