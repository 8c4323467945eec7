ghost use Rattle.std.specs.Prelude.{◌≡◌, ℕ, List, Some};
ghost use Rattle.std.specs.Str.{IsUtf8};
ghost use Rattle.texts.specs.Words.{words};
ghost use Rattle.aria_tables.specs.declared.role.Role.{Role};
ghost use Rattle.aria_tables.specs.declared.attr.AriaAttr.{AriaAttr};
ghost use Rattle.aria_tables.specs.Roles.{word_of, role_of};
ghost use Rattle.aria_tables.specs.Attributes.{name_of, attr_of};
ghost use Rattle.aria_tables.specs.Tokens.{tokens};

/// Laws of the words of the tables. It does nothing: the clauses are what it is for.
///
/// Each role is found by its word and each attribute by its name, so no two share one. The tokens of a
/// text are its words.
#[tactic(auto, using(crate::proofs::Roles::role_of_word, crate::proofs::Attributes::attr_of_name, crate::proofs::Utf8Tokens::tokens_of_text))]
pub fn laws_of_words()
    ensures roles { (role : Role) → role_of (word_of role) ≡ Some role }
    ensures attributes { (attr : AriaAttr) → attr_of (name_of attr) ≡ Some attr }
    ensures texts { (text : List ℕ) → IsUtf8 text → words text ≡ tokens text }
{}
