ghost use Rattle.std.specs.Prelude.{◌≡◌, ◌≤◌, ◌<◌, ◌^◌, ℕ, List, length, IfOk};
ghost use Rattle.rule_core.specs.declared.evidence.TheConstants.{LONGEST};
ghost use Rattle.rule_core.specs.Brief.{digest, digested, brief};

use sha2::{Digest, Sha256};
use snap_tree::{OutOfMemory, Text};
use std::alloc::Global;

/// The greatest length in bytes of a text that stands in evidence as it is.
pub(crate) const LONGEST: usize = 4096;

/// The SHA-256 digest of a text's bytes (FIPS 180-4).
pub fn digest(text: &Text) -> [u8; 32]
    ensures { result ≡ digest text.now }
{
    Sha256::digest(text.as_str())
}

/// What stands for a text that is too long: `long `, its length in bytes in decimal, a space, and
/// its digest in lower-case hexadecimal.
#[tactic(auto, unfolding(crate::specs::Brief::digested))]
pub(crate) fn digested(alloc: Global, text: &Text) -> Result<Text, OutOfMemory>
    ensures { IfOk result (λ t. t ≡ digested text.now) }
{
    let hexadecimal = hex::encode(alloc, digest(text))?;
    let length = text.len();
    Ok(Text::from_string(format!(in alloc; "long {length} {hexadecimal}")?))
}

/// The text as it stands in evidence: itself where it has at most 4,096 bytes, else `long `, its
/// length in bytes in decimal, a space, and its SHA-256 digest in lower-case hexadecimal.
#[tactic(auto, unfolding(crate::specs::Brief::brief))]
pub fn brief(alloc: Global, text: &Text) -> Result<Text, OutOfMemory>
    ensures { IfOk result (λ t. t ≡ brief text.now) }
{
    if text.len() <= LONGEST {
        text.copy(alloc)
    } else {
        digested(alloc, text)
    }
}

/// The limit on evidence, as a number of bytes. `brief` names the limit, so this clause alone says how much
/// it is.
pub fn laws_of_limits()
    ensures evidence { LONGEST ≡ 4096 }
{}

/// Laws of evidence. It does nothing: the clauses are what it is for.
///
/// A text of at most 4,096 bytes stands as it is, and what stands for a text that a machine can hold has at
/// most 4,096 bytes.
#[tactic(auto, using(crate::proofs::Shortness::brief_itself, crate::proofs::Shortness::brief_short))]
pub fn laws_of_evidence()
    ensures itself { (text : List ℕ) → length text ≤ 4096 → brief text ≡ text }
    ensures short { (text : List ℕ) → length text < 2 ^ 64 → length (brief text) ≤ 4096 }
{}
