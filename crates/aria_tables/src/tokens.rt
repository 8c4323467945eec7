ghost use Rattle.std.specs.Prelude.{◌≡◌, ◌==◌, length, nat_lt};
ghost use Rattle.texts.specs.Words.{words};
ghost use Rattle.aria_tables.specs.Tokens.{tokens};

use std::str;
use texts::next_word;

/// A value as text; bytes that are no UTF-8 have no token, like the empty text.
#[tactic(auto, using(crate::proofs::Utf8Tokens::tokens_of_text, crate::proofs::Utf8Tokens::no_tokens))]
pub(crate) fn text_of(value: &[u8]) -> &str
    ensures { words result.now ≡ tokens value.now }
{
    match str::from_utf8(value) {
        Ok(text) => text,
        Err(_) => "",
    }
}

/// Whether the value has a token.
pub(crate) fn has_token(value: &[u8]) -> bool
    ensures { result ≡ nat_lt 0 (length (tokens value.now)) }
{
    next_word(text_of(value)).is_some()
}

/// Whether the value is one token.
pub(crate) fn is_one_token(value: &[u8]) -> bool
    ensures { result ≡ (length (tokens value.now) == 1) }
{
    match next_word(text_of(value)) {
        Some((_, rest)) => next_word(rest).is_none(),
        None => false,
    }
}
