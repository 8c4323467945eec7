//! What ARIA's tables say of roles, attributes and values.

use aria_tables::{
    AriaAttr, Role, allowed_owned, attr_of, is_among, is_global, is_landmark, is_later,
    is_reference, looks_through, named_from_content, required_states, role_of, same_role,
    value_kind, value_ok,
};
use fixture_sketches::{Trouble, cut, push_word, unquoted};
use std::alloc::Global;

fn role_in(word: &str) -> Result<Role, Trouble> {
    role_of(word.as_bytes()).ok_or(Trouble::NotInForm)
}

fn attr_in(name: &str) -> Result<AriaAttr, Trouble> {
    attr_of(name.as_bytes()).ok_or(Trouble::NotInForm)
}

fn yes(is_so: bool) -> &'static str {
    if is_so { "yes" } else { "no" }
}

/// The words of the flags that hold.
pub fn flags(alloc: Global, flags: &[(bool, &str)]) -> Result<String, Trouble> {
    let mut line = String::new(alloc);
    for (is_so, word) in flags {
        if *is_so {
            push_word(&mut line, word)?;
        }
    }
    Ok(line)
}

/// What the tables answer to a question behind `aria-table`.
pub fn from_table(alloc: Global, bytes: &[u8], word: &str, rest: &str) -> Result<String, Trouble> {
    match word {
        "role" => role(alloc, rest),
        "attribute" => attribute(alloc, rest),
        "value" => value(alloc, rest),
        "bytes" => are_ok(alloc, attr_in(rest)?, bytes),
        "kind" => kind(alloc, rest),
        "among" => among(alloc, rest),
        "same" => same(alloc, rest),
        _ => of_role(alloc, word, role_in(rest)?),
    }
}

// What a role requires, may own, and is looked through.
fn of_role(alloc: Global, word: &str, role: Role) -> Result<String, Trouble> {
    match word {
        "requires" => required(alloc, required_states(role)),
        "allows" => listed(alloc, allowed_owned(role)),
        "through" => listed(alloc, looks_through(role)),
        _ => Err(Trouble::NotInForm),
    }
}

// Whether bytes are a value of an attribute.
fn are_ok(alloc: Global, attr: AriaAttr, bytes: &[u8]) -> Result<String, Trouble> {
    Ok(String::from_str(alloc, yes(value_ok(attr, bytes)))?)
}

fn kind(alloc: Global, rest: &str) -> Result<String, Trouble> {
    let kind = value_kind(attr_in(rest)?);
    Ok(format!(in alloc; "{kind:?}")?)
}

// The role of a word, and its kinds.
fn role(alloc: Global, rest: &str) -> Result<String, Trouble> {
    let word = unquoted(alloc, rest)?;
    let Some(role) = role_of(word.as_str().as_bytes()) else {
        return Ok(String::new(alloc));
    };
    flags(
        alloc,
        &[
            (true, role.word()),
            (named_from_content(role), "named-from-content"),
            (is_landmark(role), "landmark"),
        ],
    )
}

// The attribute of a name and its kinds, or whether it is of a later version.
fn attribute(alloc: Global, rest: &str) -> Result<String, Trouble> {
    let name = unquoted(alloc, rest)?;
    let name = name.as_str().as_bytes();
    let mut line = flags(alloc, &[(is_later(name), "later")])?;
    match attr_of(name) {
        Some(attr) => push_attr(alloc, &mut line, attr)?,
        None => (),
    }
    Ok(line)
}

fn push_attr(alloc: Global, line: &mut String, attr: AriaAttr) -> Result<(), Trouble> {
    let word = format!(in alloc; "{attr:?}")?;
    push_word(line, word.as_str())?;
    if is_global(attr) {
        push_word(line, "global")?;
    }
    if is_reference(attr) {
        push_word(line, "reference")?;
    }
    Ok(())
}

// Whether a value is one of the attribute's.
fn value(alloc: Global, rest: &str) -> Result<String, Trouble> {
    let (name, text) = cut(rest, ' ');
    let text = unquoted(alloc, text)?;
    let is_ok = value_ok(attr_in(name)?, text.as_str().as_bytes());
    Ok(String::from_str(alloc, yes(is_ok))?)
}

fn required(alloc: Global, states: &[AriaAttr]) -> Result<String, Trouble> {
    let mut line = String::new(alloc);
    for state in states {
        let word = format!(in alloc; "{state:?}")?;
        push_word(&mut line, word.as_str())?;
    }
    Ok(line)
}

fn listed(alloc: Global, roles: &[Role]) -> Result<String, Trouble> {
    let mut line = String::new(alloc);
    for role in roles {
        push_word(&mut line, role.word())?;
    }
    Ok(line)
}

// Whether a word is `on` or `off` without regard to the case of its letters.
fn among(alloc: Global, rest: &str) -> Result<String, Trouble> {
    let word = unquoted(alloc, rest)?;
    let is_one = is_among(word.as_str().as_bytes(), &["on", "off"]);
    Ok(String::from_str(alloc, yes(is_one))?)
}

// Whether a role is another, and whether it is one of the two.
fn same(alloc: Global, rest: &str) -> Result<String, Trouble> {
    let (one, other) = cut(rest, ' ');
    let (one, other) = (role_in(one)?, role_in(other)?);
    let same = yes(same_role(one, other));
    let is_one = yes(one.is_one_of([other, one].as_slice()) && !one.is_one_of([].as_slice()));
    Ok(format!(in alloc; "{same}, one of both {is_one}")?)
}
