ghost use Rattle.std.specs.Prelude.{◌≡◌, ◌+◌, ℕ, List, [], ◌++◌, true, false, length, map, Option, IfOk};
ghost use Rattle.std.specs.List.{AllByRecursion};
ghost use Rattle.snap_tree.specs.Trees.{Document};
ghost use Rattle.serde_json.specs.Data.{Data};
ghost use Rattle.rule_core.specs.declared.info.RuleInfo.{RuleInfo};
ghost use Rattle.rule_core.specs.Infos.{is_orderly};
ghost use Rattle.rule_core.specs.Books.{Book};
ghost use Rattle.judge_core.specs.declared.judgement.Judgement.{Judgement};
ghost use Rattle.judge_core.specs.declared.outcomes.OutRow.{OutRow};
ghost use Rattle.judge_core.specs.Outcomes.{outcomes};
ghost use Rattle.earl_in.specs.declared.claim.Claim.{Claim};
ghost use Rattle.earl_in.specs.Reading.{read_earl, Fit};
ghost use Rattle.earl_in.specs.Taking.{stands, taken_of};
ghost use Rattle.earl_in.specs.Effects.{IsJudged, IsSent, automatic};

/// Laws of taking. It does nothing: the clauses are what it is for.
///
/// Each entry counts once. What is added is by the hand, on an open row of the page and of that row's evidence; some claim that
/// was sent says it, by the evidence's digest; and none of it stood before.
pub fn laws_of_taking()
    ensures counted { (address : List ℕ) (rows : List OutRow) (js : List Judgement) (hand : List ℕ) (claims : List (Option Claim))
        → length (taken_of address rows js hand claims).added + (taken_of address rows js hand claims).known
        + (taken_of address rows js hand claims).skipped ≡ length claims }
    ensures judged { (address : List ℕ) (rows : List OutRow) (js : List Judgement) (hand : List ℕ) (claims : List (Option Claim))
        → AllByRecursion (IsJudged rows hand) (taken_of address rows js hand claims).added }
    ensures sent { (address : List ℕ) (rows : List OutRow) (js : List Judgement) (hand : List ℕ) (claims : List (Option Claim))
        → AllByRecursion (IsSent address claims) (taken_of address rows js hand claims).added }
    ensures fresh { (address : List ℕ) (rows : List OutRow) (js : List Judgement) (hand : List ℕ) (claims : List (Option Claim))
        → AllByRecursion (λ j. stands j js ≡ false) (taken_of address rows js hand claims).added }
{}

/// Laws of taking again. They do nothing: the clauses are what they are for.
///
/// The same claims, taken again after what they added and whatever was judged since, add nothing: what was added is known too.
/// That holds on all outcomes with the same automatic ones, and judgements change none of those.
#[tactic(auto, using(crate::proofs::SameRows::same_rows))]
pub fn laws_of_taking_again()
    ensures nothing { (address : List ℕ) (rows after : List OutRow) (js more : List Judgement) (hand : List ℕ) (claims : List (Option Claim))
        → map automatic rows ≡ map automatic after
        → taken_of address after (js ++ (taken_of address rows js hand claims).added ++ more) hand claims
        ≡ record {
          added = [];
          known = (taken_of address rows js hand claims).known + length (taken_of address rows js hand claims).added;
          skipped = (taken_of address rows js hand claims).skipped;
        } }
    ensures same { (book : Book) (page : Document) (js others : List Judgement)
        → map automatic (outcomes book page js) ≡ map automatic (outcomes book page others) }
{}

/// A law of reading. It does nothing: the clause is what it is for.
///
/// By the infos of a book, what is read are at most 10,000 entries, and each claim is of an atomic rule of the book.
#[tactic(auto, using(crate::proofs::Fits::read_fits))]
pub fn laws_of_reading()
    ensures fits { (infos : List RuleInfo) (body : Data) → is_orderly infos ≡ true → IfOk (read_earl infos body) (Fit infos) }
{}
