ghost use Rattle.std.specs.Prelude.{◌≡◌};
ghost use Rattle.keep_core.specs.Members.{role_of};

use named_rows::Named;
use snap_tree::Text;

/// What a member of a site may do.
#[derive(Clone, Copy, Debug, PartialEq, Eq)]
pub enum MemberRole {
    /// Everything.
    Owner,
    /// Put pages, edit and drop them.
    Editor,
    /// Judge what rules can't tell.
    Judge,
    /// Read.
    Reader,
}

/// A member of a site.
#[derive(Debug, Drop, PartialEq, Eq)]
pub struct Member {
    pub user: Text,
    pub role: MemberRole,
}

impl Named for Member {
    ghost name = { λ m. m.user };

    fn name(&self) -> &Text {
        &self.user
    }
}

/// A site of which a user is a member, and the role there.
#[derive(Debug, Drop, PartialEq, Eq)]
pub struct Membership {
    pub site: Text,
    pub role: MemberRole,
}

/// The role of a user among the members of a site; None for a stranger.
pub fn role_of(user: &Text, members: &[Member]) -> Option<MemberRole>
    ensures { result ≡ role_of user.now members.now }
{
    members
        .iter()
        .find(|member| member.user == *user)
        .map(|member| member.role)
}
