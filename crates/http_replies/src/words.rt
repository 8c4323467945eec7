ghost use Rattle.std.specs.Prelude.{◌≡◌, ◌==◌, ◌≤◌, length};
ghost use Rattle.std.specs.Option.{option_copied};
ghost use Rattle.rule_core.specs.Infos.{info_of};
ghost use Rattle.http_replies.specs.Words.{role_word, needed_word, limit_word, head_word};

use desk_core::{Limit, Needed};
use http_messages::HeadFault;
use keep_core::MemberRole;
use rule_core::{RuleInfo, RuleNo};

// The word of a user's role, `none` for a user who is no member.
pub(crate) fn role_word(role: Option<MemberRole>) -> &'static str
    ensures word { result.now ≡ role_word role }
    ensures short { length result.now ≤ 6 }
{
    match role {
        None => "none",
        Some(MemberRole::Owner) => "owner",
        Some(MemberRole::Editor) => "editor",
        Some(MemberRole::Judge) => "judge",
        Some(MemberRole::Reader) => "reader",
    }
}

pub(crate) fn needed_word(needed: Needed) -> &'static str
    ensures { result.now ≡ needed_word needed }
{
    match needed {
        Needed::Owner => "owner",
        Needed::AnotherOwner => "another owner",
        Needed::Editor => "editor",
        Needed::Judge => "judge",
        Needed::Reader => "reader",
    }
}

pub(crate) fn limit_word(limit: Limit) -> &'static str
    ensures { result.now ≡ limit_word limit }
{
    match limit {
        Limit::Pages => "pages",
        Limit::Revisions => "revisions",
    }
}

pub(crate) fn head_word(fault: HeadFault) -> &'static str
    ensures { result.now ≡ head_word fault }
{
    match fault {
        HeadFault::BadHead => "BadHead",
        HeadFault::HeadTooLarge => "HeadTooLarge",
        HeadFault::TransferEncoding => "TransferEncoding",
        HeadFault::LengthRequired => "LengthRequired",
        HeadFault::BodyTooLarge => "BodyTooLarge",
    }
}

// The info of a rule, if it is among them.
pub(crate) fn rule_of(infos: &[RuleInfo], rule: RuleNo) -> Option<RuleInfo>
    ensures { result ≡ info_of infos.now rule.0 }
{
    first_of(infos, rule).copied()
}

fn first_of(infos: &[RuleInfo], rule: RuleNo) -> Option<&RuleInfo>
    ensures { option_copied result ≡ info_of infos.now rule.0 }
{
    infos.iter().find(|info| is_of(info, rule))
}

fn is_of(info: &RuleInfo, rule: RuleNo) -> bool
    ensures { result ≡ (rule.0 == info.now.no.0) }
{
    rule.0 == info.no.0
}
