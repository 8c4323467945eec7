ghost use Rattle.std.specs.Prelude.{List};
ghost use Rattle.rule_core.specs.declared.info.Class.{Class};
ghost use Rattle.rule_core.specs.declared.info.Class.TheVariants.{Sub, Table, Title, Metas, Whole, SubLang};
ghost use Rattle.rule_core.specs.Books.{Entry};
ghost use Rattle.acc_tree.specs.Sights.{sight_of};
ghost use Rattle.page_keys.specs.Laws.{alone, table_sight, root_titles, meta_owns, page_at};
ghost use Rattle.rule_sights.specs.Telling.{Tells};
ghost use Rattle.rule_sights.specs.Tables.{IsLocalTable};

/// What each class tells of a node. It does nothing: the clauses are what it is for.
///
/// Two well pages that agree on what the class looks at say the same of it: each class tells the node's row with what
/// is above it, and one of them also its sight, the sight of its nearest table, the subtrees of the titles, what the
/// metas have of their own, or the whole page.
#[tactic(auto, using(crate::proofs::Told::alone_told, crate::proofs::Told::sight_told, crate::proofs::Told::sub_lang_told, crate::proofs::Told::table_told, crate::proofs::Told::titles_told, crate::proofs::Told::metas_told, crate::proofs::Told::whole_told))]
pub fn laws_of_classes()
    ensures alone { (class : Class) → Tells class alone }
    ensures sight { Tells Sub sight_of }
    ensures sight_too { Tells SubLang sight_of }
    ensures table { Tells Table table_sight }
    ensures titles { Tells Title root_titles }
    ensures metas { Tells Metas meta_owns }
    ensures whole { Tells Whole page_at }
{}

/// The law of a book that is a table. It does nothing: the clause is what it is for.
///
/// Where the infos of a table of rules are orderly and each atomic rule of it is local, so is the book. Of a composite
/// rule nothing is asked: the book itself says nothing of it.
#[tactic(auto, using(crate::proofs::Tables::table_local))]
pub fn laws_of_tables()
    ensures { (entries : List Entry) → IsLocalTable entries }
{}
