ghost use Rattle.std.specs.Prelude.{◌≡◌, ◌+◌, ◌*◌, ◌≤◌, ◌++◌, length, codes, true, OnOk};
ghost use Rattle.std.specs.Vec.{vec_capacity};
ghost use Rattle.std.specs.List.{flat_map, list_all};
ghost use Rattle.reply_frames.specs.Pushing.{Fits};
ghost use Rattle.http_replies.specs.Words.{id_of};
ghost use Rattle.http_replies.specs.Made.{count_text, member_text, languages_text, summary_text, stored_text, after_comma, pages_text, imported_text, judged_text, made_text, is_short, are_few, is_made, taken_text};

use crate::words::{role_word, rule_of};
use desk_core::{MOST_ENTRIES, Reply, Stored, Summary};
use keep_core::{MOST_NAME, MemberRole};
use reply_frames::{push, push_number};
use reports::outcome_word;
use rule_core::{Auto, RuleInfo, RuleNo};
use snap_tree::{NodeId, OutOfMemory, Text};

// The most bytes of what is said of a page that is put.
const MOST_STORED: usize = 256;

// The most bytes of the body of a reply to a change.
pub(crate) const MOST_BODY: usize = 17_000;

/// Whether a reply is that of a change, for which room is taken before the change is made: its names have at
/// most 64 bytes, and its pages are at most 64. Each reply to a change of the machine is so.
pub fn is_made(reply: &Reply) -> bool
    ensures { result ≡ is_made reply.now }
{
    match reply {
        Reply::Site { site } => is_short(site),
        Reply::Member { user, .. } => is_short(user),
        Reply::Stored(stored) => is_short(&stored.page),
        Reply::Dropped { page } => is_short(page),
        Reply::Imported { pages } => are_few(pages.as_slice()),
        Reply::Languages { .. } | Reply::Judged { .. } | Reply::Taken { .. } => true,
        Reply::Page(_)
        | Reply::Outcomes(_)
        | Reply::Report(_)
        | Reply::Earl(_)
        | Reply::Names(_)
        | Reply::SiteReport(_)
        | Reply::SiteEarl(_)
        | Reply::SiteCsv(_)
        | Reply::Verdicts(_)
        | Reply::Members { .. }
        | Reply::Memberships { .. }
        | Reply::Refused(_) => false,
    }
}

fn is_short(name: &Text) -> bool
    ensures { result ≡ is_short name.now }
{
    name.len() <= MOST_NAME
}

fn are_few(pages: &[Stored]) -> bool
    ensures { result ≡ are_few pages.now }
{
    pages.len() <= MOST_ENTRIES && are_short(pages)
}

fn are_short(pages: &[Stored]) -> bool
    ensures { result ≡ list_all (λ s. is_short s.page) pages.now }
{
    pages.iter().all(|stored| is_short(&stored.page))
}

// Prints the body of the reply to a change at the end.
#[tactic(auto, using(crate::proofs::MadeBodies::few, crate::proofs::MadeBodies::short))]
pub(crate) fn push_made(
    out: &mut Vec<u8>,
    infos: &[RuleInfo],
    reply: &Reply,
) -> Result<(), OutOfMemory>
    requires { is_made reply.now ≡ true }
    ensures pushed { OnOk result (out.new.items ≡ out.old.items ++ made_text infos.now reply.now) }
    ensures fits { Fits MOST_BODY out.old.items (vec_capacity out.old) out.new.items (vec_capacity out.new) result }
{
    match reply {
        Reply::Site { site } => push_name(out, b"{\"site\":\"", site),
        Reply::Member { user, role } => push_member(out, user, *role),
        Reply::Languages { languages, pages } => push_languages(out, *languages, *pages),
        Reply::Stored(stored) => push_page(out, stored),
        Reply::Dropped { page } => push_name(out, b"{\"page\":\"", page),
        Reply::Imported { pages } => push_imported(out, pages.as_slice()),
        Reply::Judged {
            rule,
            node,
            outcome,
        } => push_judged(out, infos, *rule, *node, *outcome),
        Reply::Taken {
            added,
            known,
            skipped,
        } => push_taken(out, *added, *known, *skipped),
        Reply::Page(_)
        | Reply::Outcomes(_)
        | Reply::Report(_)
        | Reply::Earl(_)
        | Reply::Names(_)
        | Reply::SiteReport(_)
        | Reply::SiteEarl(_)
        | Reply::SiteCsv(_)
        | Reply::Verdicts(_)
        | Reply::Members { .. }
        | Reply::Memberships { .. }
        | Reply::Refused(_) => Ok(()),
    }
}

// Prints an object with one name, after what opens it.
fn push_name(out: &mut Vec<u8>, opening: &[u8], name: &Text) -> Result<(), OutOfMemory>
    requires few { length opening.now ≤ 16 }
    requires short { length name.now ≤ MOST_NAME }
    ensures pushed { OnOk result (out.new.items ≡ out.old.items ++ (opening.now ++ name.now ++ codes "\"}")) }
    ensures fits { Fits MOST_BODY out.old.items (vec_capacity out.old) out.new.items (vec_capacity out.new) result }
{
    push(out, opening)?;
    push(out, name.as_str().as_bytes())?;
    push(out, b"\"}")?;
    Ok(())
}

fn push_member(out: &mut Vec<u8>, user: &Text, role: Option<MemberRole>) -> Result<(), OutOfMemory>
    requires { length user.now ≤ MOST_NAME }
    ensures pushed { OnOk result (out.new.items ≡ out.old.items ++ member_text user.now role) }
    ensures fits { Fits MOST_BODY out.old.items (vec_capacity out.old) out.new.items (vec_capacity out.new) result }
{
    push(out, b"{\"member\":\"")?;
    push(out, user.as_str().as_bytes())?;
    push(out, b"\",\"role\":\"")?;
    push(out, role_word(role).as_bytes())?;
    push(out, b"\"}")?;
    Ok(())
}

#[tactic(auto, unfolding(crate::specs::Made::languages_text))]
fn push_languages(out: &mut Vec<u8>, languages: u32, pages: u32) -> Result<(), OutOfMemory>
    ensures pushed { OnOk result (out.new.items ≡ out.old.items ++ languages_text languages pages) }
    ensures fits { Fits MOST_BODY out.old.items (vec_capacity out.old) out.new.items (vec_capacity out.new) result }
{
    push_count(out, b"{\"languages\":", u64::from(languages))?;
    push_count(out, b",\"pages\":", u64::from(pages))?;
    push(out, b"}")?;
    Ok(())
}

// Prints a page that was put alone.
fn push_page(out: &mut Vec<u8>, stored: &Stored) -> Result<(), OutOfMemory>
    requires { length stored.now.page ≤ MOST_NAME }
    ensures pushed { OnOk result (out.new.items ≡ out.old.items ++ stored_text stored.now) }
    ensures fits { Fits MOST_BODY out.old.items (vec_capacity out.old) out.new.items (vec_capacity out.new) result }
{
    push_stored(out, stored)?;
    Ok(())
}

#[tactic(auto, unfolding(crate::specs::Made::stored_text))]
fn push_stored(out: &mut Vec<u8>, stored: &Stored) -> Result<(), OutOfMemory>
    requires { length stored.now.page ≤ MOST_NAME }
    ensures pushed { OnOk result (out.new.items ≡ out.old.items ++ stored_text stored.now) }
    ensures fits { Fits MOST_STORED out.old.items (vec_capacity out.old) out.new.items (vec_capacity out.new) result }
{
    push(out, b"{\"page\":\"")?;
    push(out, stored.page.as_str().as_bytes())?;
    push_count(out, b"\",\"rev\":", stored.rev)?;
    push(out, b",\"summary\":")?;
    push_summary(out, &stored.summary)?;
    push(out, b"}")?;
    Ok(())
}

#[tactic(auto, unfolding(crate::specs::Made::summary_text))]
fn push_summary(out: &mut Vec<u8>, summary: &Summary) -> Result<(), OutOfMemory>
    ensures pushed { OnOk result (out.new.items ≡ out.old.items ++ summary_text summary.now) }
    ensures fits { Fits 132 out.old.items (vec_capacity out.old) out.new.items (vec_capacity out.new) result }
{
    push_count(out, b"{\"cantTell\":", u64::from(summary.cant_tell))?;
    push_count(out, b",\"failed\":", u64::from(summary.failed))?;
    push_count(out, b",\"inapplicable\":", u64::from(summary.inapplicable))?;
    push_count(out, b",\"passed\":", u64::from(summary.passed))?;
    push(out, b"}")?;
    Ok(())
}

fn push_imported(out: &mut Vec<u8>, pages: &[Stored]) -> Result<(), OutOfMemory>
    requires few { length pages.now ≤ MOST_ENTRIES }
    requires short { list_all (λ s. is_short s.page) pages.now ≡ true }
    ensures pushed { OnOk result (out.new.items ≡ out.old.items ++ imported_text pages.now) }
    ensures fits { Fits MOST_BODY out.old.items (vec_capacity out.old) out.new.items (vec_capacity out.new) result }
{
    push(out, b"{\"pages\":[")?;
    push_pages(out, pages)?;
    push(out, b"]}")?;
    Ok(())
}

#[tactic(auto, using(crate::proofs::MadeBodies::first_short, crate::proofs::MadeBodies::rest_short))]
fn push_pages(out: &mut Vec<u8>, pages: &[Stored]) -> Result<(), OutOfMemory>
    requires { list_all (λ s. is_short s.page) pages.now ≡ true }
    ensures pushed { OnOk result (out.new.items ≡ out.old.items ++ pages_text pages.now) }
    ensures fits { Fits (260 * length pages.now) out.old.items (vec_capacity out.old) out.new.items (vec_capacity out.new) result }
{
    match pages.split_first() {
        None => Ok(()),
        Some((first, rest)) => {
            push_stored(out, first)?;
            push_rest(out, rest)?;
            Ok(())
        }
    }
}

// Prints the pages after the first.
#[tactic(auto, using(crate::proofs::MadeBodies::each_short))]
fn push_rest(out: &mut Vec<u8>, pages: &[Stored]) -> Result<(), OutOfMemory>
    requires { list_all (λ s. is_short s.page) pages.now ≡ true }
    ensures pushed { OnOk result (out.new.items ≡ out.old.items ++ flat_map after_comma pages.now) }
    ensures fits { Fits (260 * length pages.now) out.old.items (vec_capacity out.old) out.new.items (vec_capacity out.new) result }
{
    for stored in pages {
        push_next(out, stored)?;
    }
    Ok(())
}

fn push_next(out: &mut Vec<u8>, stored: &Stored) -> Result<(), OutOfMemory>
    requires { length stored.now.page ≤ MOST_NAME }
    ensures pushed { OnOk result (out.new.items ≡ out.old.items ++ after_comma stored.now) }
    ensures fits { Fits 260 out.old.items (vec_capacity out.old) out.new.items (vec_capacity out.new) result }
{
    push(out, b",")?;
    push_stored(out, stored)?;
    Ok(())
}

#[tactic(auto, unfolding(crate::specs::Made::judged_text))]
fn push_judged(
    out: &mut Vec<u8>,
    infos: &[RuleInfo],
    rule: RuleNo,
    node: NodeId,
    outcome: Auto,
) -> Result<(), OutOfMemory>
    ensures pushed { OnOk result (out.new.items ≡ out.old.items ++ judged_text infos.now rule node outcome) }
    ensures fits { Fits MOST_BODY out.old.items (vec_capacity out.old) out.new.items (vec_capacity out.new) result }
{
    push_count(out, b"{\"node\":", u64::from(node.0))?;
    push(out, b",\"outcome\":\"")?;
    push(out, outcome_word(outcome).as_bytes())?;
    push(out, b"\",\"rule\":\"")?;
    push_id(out, infos, rule)?;
    push(out, b"\"}")?;
    Ok(())
}

#[tactic(auto, unfolding(crate::specs::Made::taken_text))]
fn push_taken(out: &mut Vec<u8>, added: u32, known: u32, skipped: u32) -> Result<(), OutOfMemory>
    ensures pushed { OnOk result (out.new.items ≡ out.old.items ++ taken_text added known skipped) }
    ensures fits { Fits MOST_BODY out.old.items (vec_capacity out.old) out.new.items (vec_capacity out.new) result }
{
    push_count(out, b"{\"added\":", u64::from(added))?;
    push_count(out, b",\"known\":", u64::from(known))?;
    push_count(out, b",\"skipped\":", u64::from(skipped))?;
    push(out, b"}")?;
    Ok(())
}

// Prints the id of a rule; nothing for a rule that isn't among the infos.
fn push_id(out: &mut Vec<u8>, infos: &[RuleInfo], rule: RuleNo) -> Result<(), OutOfMemory>
    ensures pushed { OnOk result (out.new.items ≡ out.old.items ++ id_of infos.now rule) }
    ensures fits { Fits 6 out.old.items (vec_capacity out.old) out.new.items (vec_capacity out.new) result }
{
    match rule_of(infos, rule) {
        Some(info) => {
            push(out, &info.id)?;
            Ok(())
        }
        None => Ok(()),
    }
}

// Prints a key, with what stands before it, and a number.
#[tactic(auto, unfolding(crate::specs::Made::count_text))]
fn push_count(out: &mut Vec<u8>, key: &[u8], n: u64) -> Result<(), OutOfMemory>
    ensures pushed { OnOk result (out.new.items ≡ out.old.items ++ count_text key.now n) }
    ensures fits { Fits (length key.now + 20) out.old.items (vec_capacity out.old) out.new.items (vec_capacity out.new) result }
{
    push(out, key)?;
    push_number(out, n)?;
    Ok(())
}
