ghost use Rattle.std.specs.Prelude.{◌≡◌};
ghost use Rattle.std.specs.Char.{is_ascii_lowercase};
ghost use Rattle.std.specs.List.{list_all, list_any};
ghost use Rattle.std.specs.Str.{bytes_eq};
ghost use Rattle.snap_tree.specs.Langs.{is_lang, may_follow, langs_fault};

use texts::{List, Text};

/// How many language subtags a list has at the most.
pub const MOST_LANGS: usize = 1_000;

fn are_small_letters(text: &str) -> bool
    ensures { result ≡ list_all is_ascii_lowercase text.now }
{
    text.as_bytes().iter().all(
        |byte: &u8| -> bool
            ensures { result ≡ is_ascii_lowercase byte.now }
        { byte.is_ascii_lowercase() },
    )
}

fn is_lang(lang: &Text) -> bool
    ensures { result ≡ is_lang lang.now }
{
    (lang.len() == 3) & are_small_letters(lang.as_str())
}

fn is_among(lang: &Text, others: &[Text]) -> bool
    ensures { result ≡ list_any (bytes_eq lang.now) others.now }
{
    others.iter().any(|other| *lang == *other)
}

fn may_follow(earlier: &[Text], lang: &Text) -> bool
    ensures { result ≡ may_follow earlier.now lang.now }
{
    earlier.len() < MOST_LANGS && (is_lang(lang) && !is_among(lang, earlier))
}

/// The place, counted from 1, of the first entry of a list that breaks the form of a list of language subtags;
/// `None` where the list is of the form. It has at most 1,000 entries, each three letters from `a` to `z`, and
/// none equal to an earlier one; the 1,001st entry breaks the form whatever it is.
///
/// It takes no memory.
#[tactic(auto, using(crate::proofs::LangLists::stepped, crate::proofs::LangLists::found, crate::proofs::LangLists::none_found, crate::proofs::LangLists::first))]
pub fn langs_fault(list: &List<Text>) -> Option<u32>
    ensures { result ≡ langs_fault list.now }
{
    let langs = list.as_slice();
    let mut place = 0;
    let mut rest = langs;
    while let Some((lang, later)) = rest.split_first() {
        let (earlier, _) = langs.split_at(place);
        if !may_follow(earlier, lang) {
            return Some(place as u32 + 1);
        }
        place += 1;
        rest = later;
    }
    None
}
