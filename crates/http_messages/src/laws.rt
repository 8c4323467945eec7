ghost use Rattle.std.specs.Prelude.{◌≡◌, ℕ, List};
ghost use Rattle.http_messages.specs.declared.item.Item.{Item};
ghost use Rattle.http_messages.specs.Talk.{End, Talk, IsLast, HasNoTalk};

use crate::blocks::MOST_HEAD;
use crate::framing::{MOST_BODY, MOST_DIGITS};
use crate::parse::MOST_FIELDS;
use crate::reading::PIECE;

/// Laws of what the bytes of a connection say. It does nothing: the clauses are what it is for.
///
/// The bytes determine the items and the end, and no bytes are without a talk.
#[tactic(auto, using(crate::proofs::TalkLaws::talk_unique, crate::proofs::TalkExists::talk_exists))]
pub fn laws_of_talk()
    ensures unique { (bytes : List ℕ) (is js : List Item) (e f : End) → Talk bytes is e → Talk bytes js f → IsLast e → IsLast f → (is ≡ js) × (e ≡ f) }
    ensures exists { (bytes : List ℕ) → ¬ (HasNoTalk bytes) }
{}

/// The numbers of the limits. It does nothing: the clauses are what it is for.
///
/// A head block has at most 16,384 bytes and 64 fields, a content-length at most 19 digits, and a body at most
/// 8,388,608 bytes. A piece of at most 4,096 bytes is read at once.
pub fn laws_of_limits()
    ensures head { MOST_HEAD ≡ 16_384 }
    ensures fields { MOST_FIELDS ≡ 64 }
    ensures digits { MOST_DIGITS ≡ 19 }
    ensures body { MOST_BODY ≡ 8_388_608 }
    ensures piece { PIECE ≡ 4_096 }
{}
