ghost use Rattle.std.specs.Prelude.{◌≡◌, ◌<◌, length, slice_get, IfSome};
ghost use Rattle.std.specs.Option.{option_and_then};
ghost use Rattle.judge_core.specs.Judgements.{is_of, last_place, latest, counting, counting_place, final};

use crate::judgement::Judgement;
use rule_core::{Auto, RuleNo, Verdict};
use snap_tree::{NodeId, Text};

/// The final outcome of a rule on a node where this verdict was found: passed and failed stand. Where
/// the rule can't tell, the latest judgement in the list that is of this rule on this node, with the
/// evidence of the verdict, says the outcome; its place comes with it. Where there is none, nobody
/// can tell yet. Places are counted from 0.
pub fn final_outcome(
    v: &Verdict,
    rule: RuleNo,
    n: NodeId,
    js: &[Judgement],
) -> (Auto, Option<usize>)
    ensures outcome { result.0 ≡ (final v.now.auto rule n v.now.evidence js.now).last }
    ensures place { result.1 ≡ counting_place v.now.auto rule n v.now.evidence js.now }
    ensures judgement { option_and_then (slice_get js.now) result.1
        ≡ counting v.now.auto rule n v.now.evidence js.now }
{
    match v.auto {
        Auto::CantTell => match latest_place(rule, n, &v.evidence, js) {
            Some(place) => (js[place].verdict, Some(place)),
            None => (Auto::CantTell, None),
        },
        stands => (stands, None),
    }
}

// The place of the latest judgement of a rule on a node with this evidence.
fn latest_place(rule: RuleNo, n: NodeId, evidence: &Text, js: &[Judgement]) -> Option<usize>
    ensures place { result ≡ last_place (is_of rule n evidence.now) js.now }
    ensures within { IfSome result (λ place. place < length js.now) }
    ensures judgement { option_and_then (slice_get js.now) result ≡ latest rule n evidence.now js.now }
{
    let mut latest = None;
    for (place, judgement) in js.iter().enumerate() {
        if judgement.is_of(rule, n, evidence) {
            latest = Some(place);
        }
    }
    latest
}
