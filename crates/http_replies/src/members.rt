ghost use Rattle.std.specs.Prelude.{◌≡◌, Some, IfOk, OnOk};
ghost use Rattle.serde_json.specs.Data.{string, boolean, put as with_member};
ghost use Rattle.serde_json.specs.View.{view, members_view};
ghost use Rattle.http_replies.specs.Words.{whole};
ghost use Rattle.http_replies.specs.Refusals.{plain, of_page};

use serde_json::{Map, Value, put};
use snap_tree::{OutOfMemory, Text};
use std::alloc::Global;

// Members of a JSON object, by their keys.
pub(crate) type Members = Map<String, Value>;

// Puts a text in.
pub(crate) fn put_word(
    members: &mut Members,
    alloc: Global,
    key: &str,
    word: &str,
) -> Result<(), OutOfMemory>
    ensures { OnOk result (members_view members.new.entries ≡ with_member key.now (string word.now) (members_view members.old.entries)) }
{
    put(members, alloc, key, Value::try_from_str(alloc, word)?)?;
    Ok(())
}

// Puts a whole number in.
pub(crate) fn put_number(
    members: &mut Members,
    alloc: Global,
    key: &str,
    n: u64,
) -> Result<(), OutOfMemory>
    ensures { OnOk result (members_view members.new.entries ≡ with_member key.now (whole n) (members_view members.old.entries)) }
{
    put(members, alloc, key, Value::from(n))?;
    Ok(())
}

// Puts a truth in.
pub(crate) fn put_flag(
    members: &mut Members,
    alloc: Global,
    key: &str,
    flag: bool,
) -> Result<(), OutOfMemory>
    ensures { OnOk result (members_view members.new.entries ≡ with_member key.now (boolean flag) (members_view members.old.entries)) }
{
    put(members, alloc, key, Value::from(flag))?;
    Ok(())
}

// The members of a refusal that has no others: its number and its name.
pub(crate) fn plain(alloc: Global, number: u8, name: &str) -> Result<Members, OutOfMemory>
    ensures { IfOk result (λ m. members_view m.entries ≡ plain number name.now) }
{
    let mut members = Map::new(alloc);
    put_number(&mut members, alloc, "number", u64::from(number))?;
    put_word(&mut members, alloc, "refused", name)?;
    Ok(members)
}

// The same with the page of an import, where there is one.
pub(crate) fn of_page(
    alloc: Global,
    number: u8,
    name: &str,
    page: &Option<Text>,
) -> Result<Members, OutOfMemory>
    ensures { IfOk result (λ m. members_view m.entries ≡ of_page number name.now page.now) }
{
    match page {
        None => plain(alloc, number, name),
        Some(page) => with_page(alloc, number, name, page),
    }
}

fn with_page(alloc: Global, number: u8, name: &str, page: &Text) -> Result<Members, OutOfMemory>
    ensures { IfOk result (λ m. members_view m.entries ≡ of_page number name.now (Some page.now)) }
{
    let mut members = plain(alloc, number, name)?;
    put_word(&mut members, alloc, "page", page.as_str())?;
    Ok(members)
}
