//! What becomes of outcomes: evidence, findings, judgements, merged outcomes.

use crate::rules::{outcome, push_verdict};
use fixture_sketches::{Line, Trouble, cut, cut_quoted, number, quoted, unescaped, unquoted};
use judge_core::{Judgement, evidence_digest, final_outcome, merge_composite};
use rule_core::{Auto, Class, Finding, LastLong, Reason, RuleInfo, RuleNo, Verdict, brief, digest};
use snap_tree::{NodeId, Text};
use std::alloc::Global;

/// How a text stands in evidence, by itself and after the texts before it, which may be long ones.
pub(crate) fn evidence(alloc: Global, last: &mut LastLong, rest: &str) -> Result<String, Trouble> {
    let text = Text::from_string(unquoted(alloc, rest)?);
    let alone = brief(alloc, &text)?;
    let after = last.brief(alloc, &text)?;
    if alone.as_str() == after.as_str() {
        return quoted(alloc, alone.as_str());
    }
    let after = after.as_str();
    Ok(format!(in alloc; "another text after others: {after}")?)
}

/// The digest of a text in hexadecimal digits, of a finding's evidence and of a judgement's.
pub(crate) fn digested(alloc: Global, rest: &str) -> Result<String, Trouble> {
    let text = Text::from_string(unquoted(alloc, rest)?);
    let found = digest(&text);
    if found.as_slice() != evidence_digest(&text).as_slice() {
        return Ok(String::from_str(alloc, "two digests")?);
    }
    Ok(hex::encode(alloc, found)?)
}

/// The reason of a word, where that is the word of the reason.
pub(crate) fn reason(alloc: Global, rest: &str) -> Result<String, Trouble> {
    let word = unquoted(alloc, rest)?;
    match Reason::from_word(word.as_str()) {
        Some(reason) if reason.word() == word.as_str() => Ok(format!(in alloc; "{reason:?}")?),
        Some(_) => Ok(String::from_str(alloc, "a reason of another word")?),
        None => Ok(String::new(alloc)),
    }
}

fn auto(word: &str) -> Result<Auto, Trouble> {
    match word {
        "passed" => Ok(Auto::Passed),
        "failed" => Ok(Auto::Failed),
        "cantTell" => Ok(Auto::CantTell),
        _ => Err(Trouble::NotInForm),
    }
}

/// What outcomes are merged to, in any order, and each by itself.
pub(crate) fn merged(alloc: Global, rest: &str) -> Result<String, Trouble> {
    let inputs = autos(alloc, rest)?;
    let merged = merge_some(inputs.as_slice())?;
    let said = if is_same_in_turn(alloc, inputs.as_slice(), merged)? {
        outcome(merged)
    } else {
        "another in another order"
    };
    Ok(String::from_str(alloc, said)?)
}

fn autos(alloc: Global, words: &str) -> Result<Vec<Auto>, Trouble> {
    let mut autos = Vec::new(alloc);
    for word in words.split_whitespace() {
        autos.push(auto(word)?)?;
    }
    Ok(autos)
}

// Whether that is merged of itself, and of the inputs in turn from each of them on.
fn is_same_in_turn(alloc: Global, inputs: &[Auto], merged: Auto) -> Result<bool, Trouble> {
    for start in 0..inputs.len() {
        if merge_from(alloc, inputs, start)? != merged {
            return Ok(false);
        }
    }
    Ok(merge_some([merged].as_slice())? == merged)
}

// The same of the inputs in turn from a place on.
fn merge_from(alloc: Global, inputs: &[Auto], start: usize) -> Result<Auto, Trouble> {
    let mut turned = Vec::new(alloc);
    for input in inputs.iter().skip(start) {
        turned.push(*input)?;
    }
    for input in inputs.iter().take(start) {
        turned.push(*input)?;
    }
    merge_some(turned.as_slice())
}

fn merge_some(inputs: &[Auto]) -> Result<Auto, Trouble> {
    if inputs.is_empty() {
        return Err(Trouble::NotInForm);
    }
    Ok(merge_composite(inputs))
}

/// A judgement in a line, as `16 7 "Hours" passed`: the rule, the node, the evidence that was judged, the verdict.
pub(crate) fn judgement(alloc: Global, line: &Line) -> Result<Judgement, Trouble> {
    let (rule, rest) = cut(line.text.as_str(), ' ');
    let (node, rest) = cut(rest, ' ');
    let Some((evidence, rest)) = cut_quoted(rest) else {
        return Err(Trouble::NotInForm);
    };
    Ok(Judgement {
        rule: RuleNo(small(rule)?),
        node: NodeId(number(node)?),
        verdict: auto(rest.trim())?,
        hand: Text::from_str(alloc, "bob")?,
        note: Text::from_str(alloc, "It says when.")?,
        evidence: Text::from_string(unescaped(alloc, evidence)?),
    })
}

fn small(text: &str) -> Result<u16, Trouble> {
    match text.trim().parse::<u16>() {
        Ok(small) => Ok(small),
        Err(_) => Err(Trouble::NotInForm),
    }
}

/// The final outcome of what a rule found on a node, as `16 7 cantTell "Hours"`, and the place of the judgement that
/// counts.
pub(crate) fn finally(
    alloc: Global,
    judgements: &[Judgement],
    rest: &str,
) -> Result<String, Trouble> {
    let (rule, rest) = cut(rest, ' ');
    let (node, rest) = cut(rest, ' ');
    let (found, evidence) = cut(rest, ' ');
    let verdict = Verdict {
        auto: auto(found)?,
        reason: Reason::JudgeHeading,
        evidence: Text::from_string(unquoted(alloc, evidence)?),
    };
    let (last, place) = final_outcome(
        &verdict,
        RuleNo(small(rule)?),
        NodeId(number(node)?),
        judgements,
    );
    let last = outcome(last);
    match place {
        Some(place) => Ok(format!(in alloc; "{last} by judgement {place}")?),
        None => Ok(String::from_str(alloc, last)?),
    }
}

/// The verdict that a finding makes of a text, as `failed no-lang`, or `met` with a text behind it.
pub(crate) fn finding(alloc: Global, rest: &str) -> Result<String, Trouble> {
    let (words, text) = words_and_text(alloc, rest)?;
    let (kind, word) = cut(words, ' ');
    let finding = finding_of(kind, Reason::from_word(word).unwrap_or(Reason::Met))?;
    let verdict = finding.verdict_on(alloc, text.as_ref())?;
    let mut line = String::new(alloc);
    push_verdict(alloc, &mut line, &verdict)?;
    Ok(String::from_str(alloc, line.as_str().trim())?)
}

// What stands before a text in quotes, and the text.
fn words_and_text(alloc: Global, rest: &str) -> Result<(&str, Option<Text>), Trouble> {
    let Some((words, _)) = rest.split_once(" \"") else {
        return Ok((rest, None));
    };
    let text = unquoted(alloc, rest.strip_prefix(words).unwrap_or(""))?;
    Ok((words, Some(Text::from_string(text))))
}

fn finding_of(kind: &str, reason: Reason) -> Result<Finding, Trouble> {
    match kind {
        "met" => Ok(Finding::met()),
        "passed" => Ok(Finding::passed(reason)),
        "failed" => Ok(Finding::failed(reason)),
        "cantTell" => Ok(Finding::cant_tell(reason)),
        _ => Err(Trouble::NotInForm),
    }
}

/// Whether a rule of these four inputs is atomic; an input of 0 is none.
pub(crate) fn kind_of_inputs(alloc: Global, rest: &str) -> Result<String, Trouble> {
    let mut inputs = [0u16; 4];
    for (input, word) in inputs.iter_mut().zip(rest.split_whitespace()) {
        *input = small(word)?;
    }
    let info = RuleInfo {
        no: RuleNo(30),
        id: *b"cf77f2",
        applies: Class::Whole,
        expects: Class::Whole,
        inputs,
    };
    let said = if info.is_atomic() {
        "atomic"
    } else {
        "composite"
    };
    Ok(String::from_str(alloc, said)?)
}
