ghost use Rattle.std.specs.Prelude.{◌≡◌, IfOk};
ghost use Rattle.std.specs.Char.{is_ascii_alphabetic};
ghost use Rattle.std.specs.List.{list_all};
ghost use Rattle.aria_tables.specs.Words.{is_among};
ghost use Rattle.rules_page.specs.Languages.{languages, primary_subtag, is_three_letters, subtag_finding, tag_verdict};

use aria_tables::is_among;
use rule_core::{Finding, Reason, Verdict};
use snap_tree::{List, OutOfMemory, Text, same_folded};
use std::alloc::Global;

/// The primary subtags of two letters (IANA Language Subtag Registry).
const LANGUAGES: [&str; 190] = [
    "aa", "ab", "ae", "af", "ak", "am", "an", "ar", "as", "av", "ay", "az", "ba", "be", "bg", "bh",
    "bi", "bm", "bn", "bo", "br", "bs", "ca", "ce", "ch", "co", "cr", "cs", "cu", "cv", "cy", "da",
    "de", "dv", "dz", "ee", "el", "en", "eo", "es", "et", "eu", "fa", "ff", "fi", "fj", "fo", "fr",
    "fy", "ga", "gd", "gl", "gn", "gu", "gv", "ha", "he", "hi", "ho", "hr", "ht", "hu", "hy", "hz",
    "ia", "id", "ie", "ig", "ii", "ik", "in", "io", "is", "it", "iu", "iw", "ja", "ji", "jv", "jw",
    "ka", "kg", "ki", "kj", "kk", "kl", "km", "kn", "ko", "kr", "ks", "ku", "kv", "kw", "ky", "la",
    "lb", "lg", "li", "ln", "lo", "lt", "lu", "lv", "mg", "mh", "mi", "mk", "ml", "mn", "mo", "mr",
    "ms", "mt", "my", "na", "nb", "nd", "ne", "ng", "nl", "nn", "no", "nr", "nv", "ny", "oc", "oj",
    "om", "or", "os", "pa", "pi", "pl", "ps", "pt", "qu", "rm", "rn", "ro", "ru", "rw", "sa", "sc",
    "sd", "se", "sg", "sh", "si", "sk", "sl", "sm", "sn", "so", "sq", "sr", "ss", "st", "su", "sv",
    "sw", "ta", "te", "tg", "th", "ti", "tk", "tl", "tn", "to", "tr", "ts", "tt", "tw", "ty", "ug",
    "uk", "ur", "uz", "ve", "vi", "vo", "wa", "wo", "xh", "yi", "yo", "za", "zh", "zu",
];

fn is_language(subtag: &str) -> bool
    ensures { result ≡ is_among languages subtag.now }
{
    is_among(subtag.as_bytes(), &LANGUAGES)
}

fn is_accepted(accepted: &List<Text>, subtag: &str) -> bool
    ensures { result ≡ is_among accepted.now subtag.now }
{
    accepted
        .as_slice()
        .iter()
        .any(|lang| same_folded(subtag, lang.as_str()))
}

fn is_all_letters(subtag: &str) -> bool
    ensures { result ≡ list_all is_ascii_alphabetic subtag.now }
{
    subtag.as_bytes().iter().all(
        |byte: &u8| -> bool
            ensures { result ≡ is_ascii_alphabetic byte.now }
        { byte.is_ascii_alphabetic() },
    )
}

fn is_three_letters(subtag: &str) -> bool
    ensures { result ≡ is_three_letters subtag.now }
{
    (subtag.len() == 3) & is_all_letters(subtag)
}

/// The primary subtag of a language tag: what stands before its first `-`.
pub fn primary_subtag(lang: &str) -> &str
    ensures { result.now ≡ primary_subtag lang.now }
{
    match lang.split_once('-') {
        Some((subtag, _rest)) => subtag,
        None => lang,
    }
}

fn subtag_finding(accepted: &List<Text>, subtag: &str) -> Finding
    ensures { result ≡ subtag_finding accepted.now subtag.now }
{
    if is_language(subtag) || is_accepted(accepted, subtag) {
        Finding::met()
    } else if is_three_letters(subtag) {
        Finding::cant_tell(Reason::ThreeLetter)
    } else {
        Finding::failed(Reason::UnknownLang)
    }
}

/// What is said of a language tag (BCP 47), by its primary subtag: it passes where that is a known one of
/// two letters or among those that the page's site accepts, a person has to judge any other of three letters, and
/// all else fails.
pub(crate) fn tag_verdict(
    alloc: Global,
    accepted: &List<Text>,
    lang: &Text,
) -> Result<Verdict, OutOfMemory>
    ensures { IfOk result (λ verdict. verdict ≡ tag_verdict accepted.now lang.now) }
{
    subtag_finding(accepted, primary_subtag(lang.as_str())).verdict(alloc, lang)
}
