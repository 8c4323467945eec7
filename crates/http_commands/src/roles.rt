ghost use Rattle.std.specs.Prelude.{◌≡◌};
ghost use Rattle.serde_json.specs.View.{view};
ghost use Rattle.snap_json.specs.Seen.{seen};
ghost use Rattle.http_commands.specs.Shapes.{Gives};
ghost use Rattle.http_commands.specs.Roles.{role_named, role_of, role_in};

use crate::shape::in_shape;
use crate::unasked::Unasked;
use http_routes::Part;
use keep_core::MemberRole;
use serde_json::Value;
use snap_json::lent_text;

/// The role that a body gives; None is the word `none`, which takes a member out.
pub(crate) fn role_in(body: &Value) -> Result<Option<MemberRole>, Unasked>
    ensures { Gives result (role_in (view body.now)) }
{
    in_shape(Part::Body, 0, body.as_object())?;
    in_shape(Part::Role, 0, role_of(body.get("role")))
}

fn role_of(member: Option<&Value>) -> Option<Option<MemberRole>>
    ensures { result ≡ role_of (seen member.entry) }
{
    role_named(lent_text(member)?)
}

fn role_named(word: &str) -> Option<Option<MemberRole>>
    ensures { result ≡ role_named word.now }
{
    if word == "owner" {
        Some(Some(MemberRole::Owner))
    } else if word == "editor" {
        Some(Some(MemberRole::Editor))
    } else if word == "judge" {
        Some(Some(MemberRole::Judge))
    } else if word == "reader" {
        Some(Some(MemberRole::Reader))
    } else if word == "none" {
        Some(None)
    } else {
        None
    }
}
