ghost use Rattle.std.specs.Prelude.{◌≡◌, [], ◌∷◌, ℕ, List, IfOk, OnOk};
ghost use Rattle.std.specs.List.{list_any};
ghost use Rattle.std.specs.String.{string_bytes};
ghost use Rattle.texts.specs.Words.{words};
ghost use Rattle.rules_more.specs.SharedWords.{share_one};
ghost use Rattle.rules_more.specs.KeptWords.{has_kept, HasKept, AreKept};

use snap_tree::{OutOfMemory, next_word};
use std::alloc::Global;
use std::collections::BTreeMap;

/// Words that are kept beyond the text that they stand in.
pub(crate) type Kept = BTreeMap<String, bool>;

fn has_kept(kept: &Kept, word: &str) -> bool
    ensures { result ≡ has_kept kept.now word.now }
{
    kept.get(word).is_some()
}

// Keeps a word.
fn keep(kept: &mut Kept, word: String) -> Result<(), OutOfMemory>
    ensures { OnOk result (HasKept kept.old kept.new (string_bytes word ∷ [])) }
{
    kept.insert(word, true)?;
    Ok(())
}

// Keeps the words of a text.
fn keep_words(alloc: Global, kept: &mut Kept, text: &str) -> Result<(), OutOfMemory>
    ensures { OnOk result (HasKept kept.old kept.new (words text.now)) }
{
    let mut rest = text;
    while let Some((word, later)) = next_word(rest) {
        keep(kept, String::from_str(alloc, word)?)?;
        rest = later;
    }
    Ok(())
}

/// The words of a text.
pub(crate) fn kept_words(alloc: Global, text: &str) -> Result<Kept, OutOfMemory>
    ensures { IfOk result (λ kept. AreKept kept (words text.now)) }
{
    let mut kept = BTreeMap::new(alloc);
    keep_words(alloc, &mut kept, text)?;
    Ok(kept)
}

// Whether some word of the text is kept.
fn has_one(kept: &Kept, text: &str) -> bool
    ensures { result ≡ list_any (has_kept kept.now) (words text.now) }
{
    let mut rest = text;
    while let Some((word, later)) = next_word(rest) {
        if has_kept(kept, word) {
            return true;
        }
        rest = later;
    }
    false
}

/// Whether some word of the text is one of the words that are kept.
#[tactic(auto, using(crate::proofs::Keeping::one_kept))]
pub(crate) fn shares_kept(kept: &Kept, text: &str) -> bool
    ensures { (some : List (List ℕ)) → AreKept kept.now some → result ≡ share_one some (words text.now) }
{
    has_one(kept, text)
}
