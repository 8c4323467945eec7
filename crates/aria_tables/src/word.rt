ghost use Rattle.std.specs.Prelude.{◌≡◌};
ghost use Rattle.std.specs.List.{list_any};
ghost use Rattle.texts.specs.Words.{same_folded};

/// Whether a value is this word, which compares ASCII case-insensitively.
pub(crate) fn is_word(value: &[u8], word: &str) -> bool
    ensures { result ≡ same_folded value.now word.now }
{
    value.eq_ignore_ascii_case(word.as_bytes())
}

/// Whether a value is one of these words, which compares ASCII case-insensitively.
pub fn is_among(value: &[u8], those: &[&str]) -> bool
    ensures { result ≡ list_any (λ word. same_folded value.now word.now) those.now }
{
    those.iter().any(|word| is_word(value, word))
}
