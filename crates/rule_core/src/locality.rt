ghost use Rattle.rule_core.specs.declared.info.RuleInfo.{RuleInfo};
ghost use Rattle.rule_core.specs.Books.{Book};
ghost use Rattle.rule_core.specs.Reach.{Says};
ghost use Rattle.rule_core.specs.Local.{IsLocal, KeepsTheRest, CountsByRule, AffectsAtMostAll};

/// Laws of what an edit affects. It does nothing: the clauses are what it is for.
///
/// On a node on which an edit doesn't affect a local rule, that says what it said. The pairs that an edit affects
/// are, of each atomic rule, the nodes of the new page on which it is affected: at most all of them.
#[tactic(auto, using(crate::proofs::Affecting::keeps_the_rest, crate::proofs::Affecting::counts_by_rule, crate::proofs::Affecting::affects_at_most_all))]
pub fn laws_of_reach()
    ensures kept { (info : RuleInfo) (says : Says) → IsLocal info says → KeepsTheRest info says }
    ensures counted { (book : Book) → CountsByRule book }
    ensures bounded { (book : Book) → AffectsAtMostAll book }
{}
