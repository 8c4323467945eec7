ghost use Rattle.std.specs.Prelude.{◌≡◌, [], ◌∷◌, IfOk, OnOk};
ghost use Rattle.std.specs.List.{list_any};
ghost use Rattle.texts.specs.Words.{words};
ghost use Rattle.rules_more.specs.SharedWords.{share_one, has_word, HasNoted, AreNoted};

use snap_tree::{OutOfMemory, next_word};
use std::alloc::Global;
use std::collections::BTreeMap;

/// The words that were noted.
type Noted<'a> = BTreeMap<&'a str, bool>;

fn has_word(noted: &Noted<'_>, word: &str) -> bool
    ensures { result ≡ has_word noted.now word.now }
{
    noted.get(word).is_some()
}

// Notes a word.
fn note<'a>(noted: &mut Noted<'a>, word: &'a str) -> Result<(), OutOfMemory>
    ensures { OnOk result (HasNoted noted.old noted.new (word.now ∷ [])) }
{
    noted.insert(word, true)?;
    Ok(())
}

// Notes the words of a text.
fn note_words<'a>(noted: &mut Noted<'a>, text: &'a str) -> Result<(), OutOfMemory>
    ensures { OnOk result (HasNoted noted.old noted.new (words text.now)) }
{
    let mut rest = text;
    while let Some((word, later)) = next_word(rest) {
        note(noted, word)?;
        rest = later;
    }
    Ok(())
}

// The words of a text.
fn words_of(alloc: Global, text: &str) -> Result<Noted<'_>, OutOfMemory>
    ensures { IfOk result (λ noted. AreNoted noted (words text.now)) }
{
    let mut noted = BTreeMap::new(alloc);
    note_words(&mut noted, text)?;
    Ok(noted)
}

// Whether some word of the text was noted.
fn has_one(noted: &Noted<'_>, text: &str) -> bool
    ensures { result ≡ list_any (has_word noted.now) (words text.now) }
{
    let mut rest = text;
    while let Some((word, later)) = next_word(rest) {
        if has_word(noted, word) {
            return true;
        }
        rest = later;
    }
    false
}

/// Whether some word of the one text is a word of the other. Each text is gone over once.
#[tactic(auto, using(crate::proofs::Sharing::one_shared))]
pub(crate) fn share_word(alloc: Global, some: &str, others: &str) -> Result<bool, OutOfMemory>
    ensures { IfOk result (λ shared. shared ≡ share_one (words some.now) (words others.now)) }
{
    let noted = words_of(alloc, others)?;
    Ok(has_one(&noted, some))
}
