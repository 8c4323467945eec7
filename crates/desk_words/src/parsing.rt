ghost use Rattle.std.specs.Prelude.{◌≡◌, IfOk, IsNone, map, option_map};
ghost use Rattle.clap.specs.Words.{app_of, found_of, rows_of};
ghost use Rattle.desk_words.specs.Words.{IsPlainApp, matched};

use clap::error::ErrorKind;
use clap::{ArgMatches, Command};
use std::alloc::{AllocError, Global};
use texts::{OutOfMemory, Text};

// The same words, as `clap` reads them.
pub(crate) fn texts_of<'a>(alloc: Global, words: &'a [Text]) -> Result<Vec<&'a str>, AllocError>
    ensures { IfOk result (λ texts. map (λ text. text.now) texts.items ≡ words.entry.now) }
{
    let mut texts = Vec::new(alloc);
    for word in words {
        texts.push(word.as_str())?;
    }
    Ok(texts)
}

// The matches of a command on words, its name first; none where it doesn't take them.
pub(crate) fn parsed<'a>(
    command: Command<'a>,
    words: &'a [&'a str],
) -> Result<Option<ArgMatches<'a>>, OutOfMemory>
    requires { IsPlainApp (app_of command) }
    ensures { IfOk result (λ m. option_map (λ m. rows_of (found_of m)) m ≡ matched (app_of command.entry) (map (λ word. word.now) words.entry.now)) }
{
    match command.try_get_matches_from(words) {
        Ok(matches) => Ok(Some(matches)),
        Err(error) => not_taken(error.kind()),
    }
}

// What an error of a kind says: that the words aren't taken, or that there was no memory to see.
fn not_taken<'a>(kind: ErrorKind) -> Result<Option<ArgMatches<'a>>, OutOfMemory>
    ensures none { IfOk result (λ m. IsNone m) }
    ensures kind { IfOk result (λ _. ¬ (kind ≡ ErrorKind.OutOfMemory)) }
{
    match kind {
        ErrorKind::OutOfMemory => Err(OutOfMemory),
        _ => Ok(None),
    }
}
