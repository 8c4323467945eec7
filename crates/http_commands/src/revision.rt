ghost use Rattle.std.specs.Prelude.{◌≡◌};
ghost use Rattle.snap_json.specs.Seen.{seen};
ghost use Rattle.http_commands.specs.Shapes.{Gives};
ghost use Rattle.http_commands.specs.Revisions.{at_most_greatest, stated, revision_in, rev_of};

use crate::shape::in_shape;
use crate::unasked::Unasked;
use http_messages::{Head, number_of};
use http_routes::Part;
use keep_core::MOST_REVISION;
use serde_json::Value;

/// The revision in a head: that of exactly one field `x-rev`, of 1 to 19 digits and at most the greatest.
pub(crate) fn revision_in(head: &Head) -> Result<u64, Unasked>
    ensures { Gives result (revision_in head.now) }
{
    in_shape(Part::Rev, 0, stated(head))
}

fn stated(head: &Head) -> Option<u64>
    ensures { result ≡ stated head.now }
{
    let field = head.only_named(b"x-rev")?;
    at_most_greatest(number_of(field.value.as_slice())?)
}

/// The revision that a member is: a whole number of at most the greatest.
pub(crate) fn rev_of(member: Option<&Value>) -> Option<u64>
    ensures { result ≡ rev_of (seen member.entry) }
{
    at_most_greatest(member?.as_u64()?)
}

fn at_most_greatest(n: u64) -> Option<u64>
    ensures { result ≡ at_most_greatest n }
{
    if n <= MOST_REVISION { Some(n) } else { None }
}
