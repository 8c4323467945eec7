ghost use Rattle.std.specs.Prelude.{◌≡◌, [], MatchOption, IfOk};
ghost use Rattle.std.specs.Char.{is_whitespace, is_ascii_whitespace};
ghost use Rattle.std.specs.List.{list_all};
ghost use Rattle.texts.specs.Words.{blank, words, tidy, same_folded, front_len, IsFirstWord};

use crate::memory::OutOfMemory;
use crate::text::Text;
use std::alloc::Global;

// Whether a text has only white space of ASCII, or nothing.
fn has_ascii_space_alone(text: &str) -> bool
    ensures { result ≡ list_all is_ascii_whitespace text.now }
{
    text.as_bytes().iter().all(
        |byte: &u8| -> bool
            ensures { result ≡ is_ascii_whitespace byte.now }
        { byte.is_ascii_whitespace() },
    )
}

// Whether a text has only characters of Unicode's White_Space, or none.
fn has_space_alone(text: &str) -> bool
    ensures { result ≡ blank text.now }
{
    text.chars().all(
        |c: char| -> bool
            ensures { result ≡ is_whitespace c }
        { c.is_whitespace() },
    )
}

/// Whether a text is blank: it has only characters of Unicode's White_Space, or none.
pub fn blank(text: &Text) -> bool
    ensures { result ≡ blank text.now }
{
    // Bytes are read faster than characters, and white space is mostly ASCII's.
    has_ascii_space_alone(text.as_str()) || has_space_alone(text.as_str())
}

// How many bytes stand before the first white space.
fn front_len(text: &str) -> usize
    ensures { result ≡ front_len text.now }
{
    let mut len = 0;
    for c in text.chars() {
        if c.is_whitespace() {
            return len;
        }
        len += c.len_utf8();
    }
    len
}

/// The first word of a text and what follows it, or None where the text is blank. Words are the
/// parts between runs of Unicode's White_Space. It takes no memory.
pub fn next_word(text: &str) -> Option<(&str, &str)>
    ensures { MatchOption result (words text.now ≡ [])
        (λ parts. IsFirstWord text.now parts.0.now parts.1.now) }
{
    let start = text.trim_start();
    if start.is_empty() {
        return None;
    }
    let (word, rest) = start.split_at(front_len(start));
    Some((word, rest))
}

/// The text with each run of white space made one space, and without spaces at both ends.
pub fn tidy(alloc: Global, text: &Text) -> Result<Text, OutOfMemory>
    ensures { IfOk result (λ t. t ≡ tidy text.now) }
{
    let mut tidied = String::new(alloc);
    let mut rest = text.as_str();
    while let Some((word, later)) = next_word(rest) {
        if !tidied.is_empty() {
            tidied.push(' ')?;
        }
        tidied.push_str(word)?;
        rest = later;
    }
    Ok(Text::from_string(tidied))
}

/// Whether two texts are equal but for the case of ASCII letters.
pub fn same_folded(a: &str, b: &str) -> bool
    ensures { result ≡ same_folded a.now b.now }
{
    a.eq_ignore_ascii_case(b)
}
