ghost use Rattle.std.specs.Prelude.{◌≡◌, [], option_map, IfOk, IfSome};
ghost use Rattle.std.specs.List.{All, list_any};
ghost use Rattle.std.specs.Result.{result_ok};
ghost use Rattle.serde_json.specs.View.{view, items_view};
ghost use Rattle.snap_json.specs.Seen.{seen};
ghost use Rattle.snap_json.specs.Pages.{sent_page_of};
ghost use Rattle.web_address.specs.Address.{IsWebAddress};
ghost use Rattle.http_routes.specs.declared.part.Part.TheVariants.{Pages};
ghost use Rattle.http_commands.specs.Shapes.{Gives, in_shape};
ghost use Rattle.http_commands.specs.Entries.{new_name, is_on, is_new, page_of, snapshot_of, entry_of, is_count, some_few, entries_from, entries_in, IsAtWeb};

use crate::revision::rev_of;
use crate::shape::in_shape;
use crate::unasked::Unasked;
use desk_core::{Entry, MOST_ENTRIES};
use http_routes::Part;
use keep_core::is_name;
use serde_json::Value;
use snap_json::{SnapFault, raw_of, text_of};
use snap_tree::{List, OutOfMemory, Raw, Text};
use std::alloc::Global;

/// The entries of an import that is the body.
pub(crate) fn entries_in(alloc: Global, body: &Value) -> Result<List<Entry>, Unasked>
    ensures exact { Gives result (entries_in (view body.now)) }
    ensures web { IfOk result (λ entries. All IsAtWeb entries) }
{
    in_shape(Part::Body, 0, body.as_object())?;
    let pages = in_shape(Part::Pages, 0, some_few(body.get("pages")))?;
    each_entry(alloc, pages)
}

// A list of 1 to 64 values.
#[tactic(auto, using(crate::proofs::Lists::many_view))]
fn some_few(member: Option<&Value>) -> Option<&[Value]>
    ensures { option_map (λ vs. items_view vs.now) result ≡ some_few (seen member.entry) }
{
    let pages = member?.as_array()?;
    if is_count(pages.len()) {
        Some(pages.as_slice())
    } else {
        None
    }
}

fn is_count(n: usize) -> bool
    ensures { result ≡ is_count n }
{
    1 <= n && n <= MOST_ENTRIES
}

// The entries of a list, in its order.
fn each_entry(alloc: Global, pages: &[Value]) -> Result<List<Entry>, Unasked>
    ensures exact { Gives result (entries_from [] 1 (items_view pages.now)) }
    ensures web { IfOk result (λ entries. All IsAtWeb entries) }
{
    let mut found = Vec::new(alloc);
    let mut place = 1u32;
    for page in pages {
        match next_entry(alloc, found.as_slice(), place, page) {
            Ok(entry) => found.push(entry)?,
            Err(fault) => return Err(fault),
        }
        place = place.saturating_add(1);
    }
    Ok(List::from_vec(found))
}

// The entry at a place of the list, after those before it.
fn next_entry(alloc: Global, earlier: &[Entry], place: u32, value: &Value) -> Result<Entry, Unasked>
    ensures exact { Gives result (in_shape Pages place (entry_of earlier.now (view value.now))) }
    ensures web { IfOk result IsAtWeb }
{
    let entry = entry_of(alloc, earlier, value)?;
    in_shape(Part::Pages, place, entry)
}

// The entry that a value is, after those before it.
fn entry_of(alloc: Global, earlier: &[Entry], value: &Value) -> Result<Option<Entry>, OutOfMemory>
    ensures exact { IfOk result (λ entry. entry ≡ entry_of earlier.now (view value.now)) }
    ensures web { IfOk result (λ entry. IfSome entry IsAtWeb) }
{
    let Some(page) = page_of(alloc, earlier, value.get("page"))? else {
        return Ok(None);
    };
    let Some(rev) = rev_of(value.get("rev")) else {
        return Ok(None);
    };
    let Some(raw) = snapshot_of(alloc, value.get("snapshot"))? else {
        return Ok(None);
    };
    Ok(Some(Entry { page, rev, raw }))
}

// A name that no earlier entry has.
fn page_of(
    alloc: Global,
    earlier: &[Entry],
    member: Option<&Value>,
) -> Result<Option<Text>, OutOfMemory>
    ensures { IfOk result (λ page. page ≡ page_of earlier.now (seen member.entry)) }
{
    match text_of(alloc, member)? {
        Some(page) => Ok(new_name(earlier, page)),
        None => Ok(None),
    }
}

fn new_name(earlier: &[Entry], page: Text) -> Option<Text>
    ensures { result ≡ new_name earlier.now page }
{
    if is_name(&page) && is_new(earlier, &page) {
        Some(page)
    } else {
        None
    }
}

fn is_new(earlier: &[Entry], page: &Text) -> bool
    ensures { result ≡ is_new earlier.now page.now }
{
    !is_taken(earlier, page)
}

fn is_taken(earlier: &[Entry], page: &Text) -> bool
    ensures { result ≡ list_any (is_on page.now) earlier.now }
{
    earlier.iter().any(|entry| is_on(entry, page))
}

fn is_on(entry: &Entry, page: &Text) -> bool
    ensures { result ≡ is_on page.now entry.now }
{
    entry.page == *page
}

// The page of a snapshot within an entry.
fn snapshot_of(alloc: Global, member: Option<&Value>) -> Result<Option<Raw>, OutOfMemory>
    ensures exact { IfOk result (λ raw. raw ≡ snapshot_of (seen member.entry)) }
    ensures web { IfOk result (λ raw. IfSome raw (λ r. IsWebAddress r.address)) }
{
    match member {
        Some(value) => sent_page(alloc, value),
        None => Ok(None),
    }
}

fn sent_page(alloc: Global, value: &Value) -> Result<Option<Raw>, OutOfMemory>
    ensures exact { IfOk result (λ raw. raw ≡ result_ok (sent_page_of (view value.now))) }
    ensures web { IfOk result (λ raw. IfSome raw (λ r. IsWebAddress r.address)) }
{
    match raw_of(alloc, value) {
        Ok(raw) => Ok(Some(raw)),
        Err(SnapFault::OutOfMemory) => Err(OutOfMemory),
        Err(_) => Ok(None),
    }
}
