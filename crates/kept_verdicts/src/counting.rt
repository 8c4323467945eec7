ghost use Rattle.std.specs.Prelude.{◌≡◌};
ghost use Rattle.judge_core.specs.Judgements.{counting_place, is_of};
ghost use Rattle.kept_verdicts.specs.Places.{ArePlaced, at};
ghost use Rattle.kept_verdicts.specs.Latest.{is_at, latest_of};

use crate::places::Places;
use judge_core::{Judgement, OutRow};
use rule_core::Auto;

// At a place stands a judgement of a row's rule, node and evidence.
fn is_at(js: &[Judgement], row: &OutRow, place: usize) -> bool
    ensures { result ≡ is_at (is_of row.now.rule row.now.node row.now.evidence) js.now place }
{
    match js.get(place) {
        Some(judgement) => judgement.is_of(row.rule, row.node, &row.evidence),
        None => false,
    }
}

// The last of some places at which one stands.
fn latest_among(js: &[Judgement], row: &OutRow, places: &[usize]) -> Option<usize>
    ensures { result ≡ latest_of (is_of row.now.rule row.now.node row.now.evidence) js.now places.now }
{
    let mut latest = None;
    for place in places {
        if is_at(js, row, *place) {
            latest = Some(*place);
        }
    }
    latest
}

// The last of the places on the row's node.
fn latest_on_node(places: &Places, js: &[Judgement], row: &OutRow) -> Option<usize>
    ensures { result ≡ latest_of (is_of row.now.rule row.now.node row.now.evidence) js.now (at places.now row.now.node.0) }
{
    match places.get(&row.node.0) {
        Some(on_node) => latest_among(js, row, on_node.as_slice()),
        None => None,
    }
}

/// The place of the judgement that counts for a row, by the places of the judgements on each node.
#[tactic(auto, using(crate::proofs::LatestPlaces::latest_placed))]
pub fn counting_place(places: &Places, js: &[Judgement], row: &OutRow) -> Option<usize>
    requires { ArePlaced js.now places.now }
    ensures { result ≡ counting_place row.now.auto row.now.rule row.now.node row.now.evidence js.now }
{
    match row.auto {
        Auto::CantTell => latest_on_node(places, js, row),
        Auto::Passed | Auto::Failed => None,
    }
}
