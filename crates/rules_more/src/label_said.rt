ghost use Rattle.std.specs.Prelude.{◌≡◌, IfOk};
ghost use Rattle.texts.specs.Words.{folded, words};
ghost use Rattle.rules_more.specs.LabelInName.{has_run, is_more_than_one, folded_finding, label_finding, label_text, label_verdict};
ghost use Rattle.rules_more.specs.SharedWords.{share_one};

use crate::shared_words::share_word;
use rule_core::{Finding, Reason, Verdict, brief};
use snap_tree::{OutOfMemory, Text};
use std::alloc::Global;

// It reads no further than the second character.
fn is_more_than_one(shown: &str) -> bool
    ensures { result ≡ is_more_than_one shown.now }
{
    let mut count = 0usize;
    for c in shown.chars() {
        let _ = c;
        if count == 1 {
            return true;
        }
        count += 1;
    }
    false
}

// Whether the part stands in the text.
#[tactic(auto, using(crate::proofs::Containing::run_found))]
fn has_run(part: &str, text: &str) -> bool
    ensures { result ≡ has_run part.now text.now }
{
    text.contains(part)
}

/// What is found where both stand in lower case, by whether they share a word.
pub(crate) fn folded_finding(shown: &str, name: &str, share: bool) -> Finding
    requires { share ≡ share_one (words shown.now) (words name.now) }
    ensures { result ≡ folded_finding shown.now name.now }
{
    let is_missing = is_more_than_one(shown) && !share;
    if is_missing {
        Finding::failed(Reason::LabelMissing)
    } else if has_run(shown, name) {
        Finding::met()
    } else {
        Finding::cant_tell(Reason::JudgeLabelInName)
    }
}

/// The text with its ASCII letters in lower case.
pub(crate) fn in_lower_case(alloc: Global, text: &Text) -> Result<Text, OutOfMemory>
    ensures { IfOk result (λ lower. lower ≡ folded text.now) }
{
    Ok(Text::from_string(text.as_str().to_ascii_lowercase(alloc)?))
}

fn finding(alloc: Global, shown: &Text, name: &Text) -> Result<Finding, OutOfMemory>
    ensures { IfOk result (λ finding. finding ≡ label_finding shown.now name.now) }
{
    let shown = in_lower_case(alloc, shown)?;
    let name = in_lower_case(alloc, name)?;
    let share = share_word(alloc, shown.as_str(), name.as_str())?;
    Ok(folded_finding(shown.as_str(), name.as_str(), share))
}

fn label_text(alloc: Global, shown: &Text, name: &Text) -> Result<Text, OutOfMemory>
    ensures { IfOk result (λ text. text ≡ label_text shown.now name.now) }
{
    let name = brief(alloc, name)?;
    let mut text = String::from_str(alloc, shown.as_str())?;
    text.push('\n')?;
    text.push_str(name.as_str())?;
    Ok(Text::from_string(text))
}

/// What the rule says of a target that shows this text and has this name.
pub(crate) fn label_verdict(
    alloc: Global,
    shown: &Text,
    name: &Text,
) -> Result<Verdict, OutOfMemory>
    ensures { IfOk result (λ verdict. verdict ≡ label_verdict shown.now name.now) }
{
    let finding = finding(alloc, shown, name)?;
    let text = label_text(alloc, shown, name)?;
    finding.verdict(alloc, &text)
}
