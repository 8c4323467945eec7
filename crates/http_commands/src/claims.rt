ghost use Rattle.std.specs.Prelude.{◌≡◌};
ghost use Rattle.serde_json.specs.View.{view};
ghost use Rattle.http_routes.specs.declared.fault.RequestFault.TheVariants as fault;
ghost use Rattle.http_commands.specs.declared.unasked.Unasked.TheVariants as unasked;
ghost use Rattle.http_commands.specs.Shapes.{Gives};
ghost use Rattle.http_commands.specs.Claims.{claims_in};

use crate::unasked::Unasked;
use earl_in::{Claim, EarlFault, read_earl};
use http_routes::{Part, RequestFault};
use judge_core::infos_of;
use rule_core::{RuleBook, RuleInfo};
use serde_json::Value;
use snap_tree::List;
use std::alloc::Global;

/// The claims of another tool that a body makes, by the rules of the book; None for each entry that makes none.
pub(crate) fn claims_in<B: RuleBook>(
    alloc: Global,
    book: &B,
    body: &Value,
) -> Result<List<Option<Claim>>, Unasked>
    ensures { Gives result (claims_in B.book.infos (view body.now)) }
{
    let infos = infos_of(alloc, book)?;
    claims_by(alloc, infos.as_slice(), body)
}

#[tactic(auto, using(crate::proofs::ClaimFits::claims_given, crate::proofs::ClaimFits::body_given, crate::proofs::ClaimFits::graph_given))]
fn claims_by(
    alloc: Global,
    infos: &[RuleInfo],
    body: &Value,
) -> Result<List<Option<Claim>>, Unasked>
    ensures { Gives result (claims_in infos.now (view body.now)) }
{
    match read_earl(alloc, infos, body) {
        Ok(claims) => Ok(claims),
        Err(EarlFault::Body) => Err(bad(Part::Body)),
        Err(EarlFault::Graph) => Err(bad(Part::Graph)),
        Err(EarlFault::OutOfMemory) => Err(Unasked::OutOfMemory),
    }
}

fn bad(part: Part) -> Unasked
    ensures { result ≡ unasked.Refused (fault.BadShape part 0) }
{
    Unasked::Refused(RequestFault::BadShape { part, place: 0 })
}
