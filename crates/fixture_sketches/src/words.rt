//! Words of a line: numbers, texts in quotes, and what stands before and behind them.

use crate::trouble::Trouble;
use std::alloc::Global;

/// A text up to the first of a sign, and what stands behind it; all and nothing where it has none.
pub fn cut(text: &str, sign: char) -> (&str, &str) {
    match text.split_once(sign) {
        Some(parts) => parts,
        None => (text, ""),
    }
}

/// The number that a text is in decimal digits.
pub fn number(text: &str) -> Result<u32, Trouble> {
    match text.trim().parse::<u32>() {
        Ok(number) => Ok(number),
        Err(_) => Err(Trouble::NotInForm),
    }
}

/// A count that a text is in decimal digits.
pub fn count(text: &str) -> Result<usize, Trouble> {
    match text.trim().parse::<usize>() {
        Ok(count) => Ok(count),
        Err(_) => Err(Trouble::NotInForm),
    }
}

/// What stands between the quote that a text begins with and the next, and what stands behind that. A quote
/// behind `\` ends nothing.
pub fn cut_quoted(text: &str) -> Option<(&str, &str)> {
    let inside = text.strip_prefix('"')?;
    let (before, behind) = inside.split_once('"')?;
    if !before.contains('\\') {
        return Some((before, behind));
    }
    let mut is_escaped = false;
    for (at, sign) in inside.char_indices() {
        if sign == '"' && !is_escaped {
            let (before, behind) = inside.split_at_checked(at)?;
            return Some((before, behind.strip_prefix('"')?));
        }
        is_escaped = sign == '\\' && !is_escaped;
    }
    None
}

/// The text that one in quotes says, which is all of the given text.
pub fn unquoted(alloc: Global, text: &str) -> Result<String, Trouble> {
    match cut_quoted(text.trim()) {
        Some((inside, "")) => unescaped(alloc, inside),
        _ => Err(Trouble::NotInForm),
    }
}

/// Where the reader of escapes is.
#[derive(Clone, Copy)]
enum Place {
    Plain,
    /// Behind `\`.
    Escape,
    /// Behind `\u`, with the code so far.
    Code(u32),
}

/// A text with its escapes read: `\n`, `\t`, `\r`, `\u{..}`, and any other sign behind `\` as itself.
pub fn unescaped(alloc: Global, raw: &str) -> Result<String, Trouble> {
    if !raw.contains('\\') {
        return Ok(String::from_str(alloc, raw)?);
    }
    let mut text = String::new(alloc);
    let mut place = Place::Plain;
    for sign in raw.chars() {
        place = match place {
            Place::Plain if sign == '\\' => Place::Escape,
            Place::Plain => {
                text.push(sign)?;
                Place::Plain
            }
            Place::Escape if sign == 'u' => Place::Code(0),
            Place::Escape => {
                text.push(meant(sign))?;
                Place::Plain
            }
            Place::Code(code) if sign == '}' => {
                text.push(char::from_u32(code).ok_or(Trouble::NotInForm)?)?;
                Place::Plain
            }
            Place::Code(code) => Place::Code(longer(code, sign)),
        };
    }
    Ok(text)
}

fn meant(sign: char) -> char {
    match sign {
        'n' => '\n',
        't' => '\t',
        'r' => '\r',
        _ => sign,
    }
}

// A code with one more digit; a sign that is none changes nothing.
fn longer(code: u32, sign: char) -> u32 {
    match sign.to_digit(16) {
        Some(digit) => code.wrapping_mul(16).wrapping_add(digit),
        None => code,
    }
}

/// Adds a text in quotes, as `unquoted` reads it.
pub fn push_quoted(alloc: Global, line: &mut String, text: &str) -> Result<(), Trouble> {
    line.push('"')?;
    for sign in text.chars() {
        push_escaped(alloc, line, sign)?;
    }
    line.push('"')?;
    Ok(())
}

// How a sign stands behind `\`, where it does.
fn escape_of(sign: char) -> Option<&'static str> {
    match sign {
        '\n' => Some("\\n"),
        '\t' => Some("\\t"),
        '\r' => Some("\\r"),
        '"' => Some("\\\""),
        '\\' => Some("\\\\"),
        _ => None,
    }
}

fn push_escaped(alloc: Global, line: &mut String, sign: char) -> Result<(), Trouble> {
    match escape_of(sign) {
        Some(said) => Ok(line.push_str(said)?),
        None if sign != ' ' && (sign.is_whitespace() || sign.is_control()) => {
            push_code(alloc, line, sign)
        }
        None => Ok(line.push(sign)?),
    }
}

fn push_code(alloc: Global, line: &mut String, sign: char) -> Result<(), Trouble> {
    let code = format!(in alloc; "\\u{{{:x}}}", sign as u32)?;
    Ok(line.push_str(code.as_str())?)
}

/// A text in quotes.
pub fn quoted(alloc: Global, text: &str) -> Result<String, Trouble> {
    let mut line = String::new(alloc);
    push_quoted(alloc, &mut line, text)?;
    Ok(line)
}

/// Adds a number, behind a space where it isn't the first word.
pub fn push_number(alloc: Global, line: &mut String, number: u32) -> Result<(), Trouble> {
    if !line.is_empty() {
        line.push(' ')?;
    }
    let digits = format!(in alloc; "{number}")?;
    line.push_str(digits.as_str())?;
    Ok(())
}

/// Adds a word, behind a space where it isn't the first.
pub fn push_word(line: &mut String, word: &str) -> Result<(), Trouble> {
    if !line.is_empty() {
        line.push(' ')?;
    }
    line.push_str(word)?;
    Ok(())
}
