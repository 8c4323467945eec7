ghost use Rattle.std.specs.Prelude.{◌≡◌, ◌≤◌, length};
ghost use Rattle.http.specs.StatusCode.{IsStatusCode};
ghost use Rattle.reply_frames.specs.Frames.{phrase};
ghost use Rattle.http_replies.specs.Refusals as refused;
ghost use Rattle.http_replies.specs.Answers.{reply_status, status, reply_kind, kind_of};

use desk_core::{Refusal, Reply};
use http_messages::HeadFault;
use http_routes::RequestFault;
use reply_frames::{Kind, MOST_PHRASE};

/// What is sent back for one thing that came over a connection.
#[derive(Drop)]
pub enum Answer {
    /// A head that is refused.
    Misread(HeadFault),
    /// A message that makes no request.
    Misasked(RequestFault),
    /// What the machine replied to a request.
    Replied(Reply),
}

impl Answer {
    // The status code (RFC 9110, section 15).
    #[tactic(auto, using(crate::proofs::Statuses::is_code, crate::proofs::Statuses::has_short_phrase))]
    pub(crate) fn status(&self) -> u16
        ensures value { result ≡ status self.now }
        ensures valid { IsStatusCode result }
        ensures short { length (phrase result) ≤ MOST_PHRASE }
    {
        self.code()
    }

    fn code(&self) -> u16
        ensures { result ≡ status self.now }
    {
        match self {
            Answer::Misread(fault) => fault.status(),
            Answer::Misasked(fault) => fault.status(),
            Answer::Replied(reply) => reply_status(reply),
        }
    }

    // What the body is.
    pub(crate) fn kind(&self) -> Kind
        ensures { result ≡ kind_of self.now }
    {
        match self {
            Answer::Misread(_) | Answer::Misasked(_) => Kind::Json,
            Answer::Replied(reply) => reply_kind(reply),
        }
    }
}

fn reply_kind(reply: &Reply) -> Kind
    ensures { result ≡ reply_kind reply.now }
{
    match reply {
        Reply::Report(_) | Reply::SiteReport(_) => Kind::Text,
        Reply::Earl(_) | Reply::SiteEarl(_) => Kind::JsonLd,
        Reply::SiteCsv(_) => Kind::Csv,
        Reply::Site { .. }
        | Reply::Member { .. }
        | Reply::Languages { .. }
        | Reply::Stored(_)
        | Reply::Page(_)
        | Reply::Dropped { .. }
        | Reply::Imported { .. }
        | Reply::Judged { .. }
        | Reply::Taken { .. }
        | Reply::Outcomes(_)
        | Reply::Names(_)
        | Reply::Verdicts(_)
        | Reply::Members { .. }
        | Reply::Memberships { .. }
        | Reply::Refused(_) => Kind::Json,
    }
}

fn reply_status(reply: &Reply) -> u16
    ensures { result ≡ reply_status reply.now }
{
    match reply {
        Reply::Site { .. } => 201,
        Reply::Refused(refusal) => refusal_status(refusal),
        Reply::Member { .. }
        | Reply::Languages { .. }
        | Reply::Stored(_)
        | Reply::Page(_)
        | Reply::Dropped { .. }
        | Reply::Imported { .. }
        | Reply::Judged { .. }
        | Reply::Taken { .. }
        | Reply::Outcomes(_)
        | Reply::Report(_)
        | Reply::Earl(_)
        | Reply::Names(_)
        | Reply::SiteReport(_)
        | Reply::SiteEarl(_)
        | Reply::SiteCsv(_)
        | Reply::Verdicts(_)
        | Reply::Members { .. }
        | Reply::Memberships { .. } => 200,
    }
}

fn refusal_status(refusal: &Refusal) -> u16
    ensures { result ≡ refused.status refusal.now }
{
    match refusal {
        Refusal::NoSite | Refusal::NoPage | Refusal::NoTarget => 404,
        Refusal::NotAllowed { .. } | Refusal::SameHand => 403,
        Refusal::SiteExists
        | Refusal::PageLimit { .. }
        | Refusal::StaleRevision { .. }
        | Refusal::NotOpen { .. }
        | Refusal::EvidenceMoved { .. } => 409,
        Refusal::TreeFault { .. } | Refusal::EditFault { .. } => 422,
        Refusal::KeeperFault => 503,
        Refusal::OutOfMemory => 507,
    }
}
