ghost use Rattle.std.specs.Prelude.{◌≡◌, ℕ, List, [], ◌∷◌, ◌++◌, ◌||◌, Some, true, false, slice_get};
ghost use Rattle.std.specs.Bool.{Decides};
ghost use Rattle.std.specs.Option.{option_and_then};
ghost use Rattle.std.specs.List.Sorted.{IsPermutation};
ghost use Rattle.snap_tree.specs.declared.row.NodeId.{NodeId};
ghost use Rattle.rule_core.specs.declared.info.RuleNo.{RuleNo};
ghost use Rattle.rule_core.specs.declared.verdict.Auto.{Auto};
ghost use Rattle.rule_core.specs.declared.verdict.Auto.TheVariants.{Passed, Failed};
ghost use Rattle.judge_core.specs.declared.judgement.Judgement.{Judgement};
ghost use Rattle.judge_core.specs.Judgements.{is_of, latest, last_place, final};
ghost use Rattle.judge_core.specs.Composites.{merge};
ghost use Rattle.judge_core.specs.Equality.{same_judgement, same_row, same_outcomes};
ghost use Rattle.judge_core.specs.declared.outcomes.OutRow.{OutRow};
ghost use Rattle.judge_core.specs.declared.outcomes.Outcomes.{Outcomes};

/// Laws of judgements. It does nothing: the clauses are what it is for.
///
/// Passed and failed stand, whatever was judged. A judgement of another rule, on another node or of other
/// evidence changes nothing, wherever it stands in the list; so one that was judged before the evidence
/// changed counts again where the evidence is as it was. Of those that are of the rule on the node with
/// the evidence the last counts.
#[tactic(auto, using(crate::proofs::Judging::others, crate::proofs::Judging::last_of, crate::proofs::Judging::at_last_place))]
pub fn laws_of_judgements()
    ensures passed_stands { (rule : RuleNo) (node : NodeId) (evidence : List ℕ) (js : List Judgement)
        → final Passed rule node evidence js ≡ record { last = Passed; hand = [] } }
    ensures failed_stands { (rule : RuleNo) (node : NodeId) (evidence : List ℕ) (js : List Judgement)
        → final Failed rule node evidence js ≡ record { last = Failed; hand = [] } }
    ensures others_change_nothing { (rule : RuleNo) (node : NodeId) (evidence : List ℕ)
        (before after : List Judgement) (j : Judgement) → is_of rule node evidence j ≡ false
        → latest rule node evidence (before ++ j ∷ after) ≡ latest rule node evidence (before ++ after) }
    ensures last_counts { (rule : RuleNo) (node : NodeId) (evidence : List ℕ)
        (before : List Judgement) (j : Judgement) → is_of rule node evidence j ≡ true
        → latest rule node evidence (before ++ j ∷ []) ≡ Some j }
    ensures at_its_place { (rule : RuleNo) (node : NodeId) (evidence : List ℕ) (js : List Judgement)
        → option_and_then (slice_get js) (last_place (is_of rule node evidence) js)
        ≡ latest rule node evidence js }
{}

/// Laws of merging. It does nothing: the clauses are what it is for.
///
/// What inputs merge to depends neither on their order nor on how often an outcome comes, and one input
/// merges to itself.
#[tactic(auto, using(crate::proofs::Merging::one_alone, crate::proofs::Merging::any_order, crate::proofs::Merging::twice))]
pub fn laws_of_merging()
    ensures alone { (outcome : Auto) → merge (outcome ∷ []) ≡ outcome }
    ensures any_order { (one other : List Auto) → IsPermutation one other → merge one ≡ merge other }
    ensures twice { (outcome : Auto) (others : List Auto)
        → merge (outcome ∷ outcome ∷ others) ≡ merge (outcome ∷ others) }
{}

/// Laws of equality. It does nothing: the clauses are what it is for.
///
/// Judgements, rows of outcomes, and outcomes are equal, as `==` says, exactly where they are the same.
#[tactic(auto, using(crate::proofs::Equal::judgements_decide, crate::proofs::Equal::rows_decide, crate::proofs::Equal::outcomes_decide))]
pub fn laws_of_equality()
    ensures judgements { (a b : Judgement) → Decides (same_judgement a b) (a ≡ b) }
    ensures rows { (a b : OutRow) → Decides (same_row a b) (a ≡ b) }
    ensures outcomes { (a b : Outcomes) → Decides (same_outcomes a b) (a ≡ b) }
{}
