ghost use Rattle.std.specs.Prelude.{◌≡◌, codes, IfOk, OnOk};
ghost use Rattle.snap_tree.specs.FaultText.{fault_number};
ghost use Rattle.snap_edit.specs.declared.fault.EditKind.TheVariants.{Tree};
ghost use Rattle.desk_core.specs.declared.refusal.Refusal.TheVariants.{StaleRevision, TreeFault as Misgrown, EditFault, EvidenceMoved};
ghost use Rattle.http_routes.specs.declared.fault.RequestFault.TheVariants.{BadShape};
ghost use Rattle.http_replies.specs.Words.{whole};
ghost use Rattle.serde_json.specs.Data.{string, put as with_member};
ghost use Rattle.serde_json.specs.View.{view, members_view};
ghost use Rattle.serde_json.specs.Written.{compact_text};
ghost use Rattle.http_replies.specs.Refusals.{plain, node_or_none, members, refusal_data, head_data, request_members, request_data};

use crate::members::{Members, of_page, plain, put_number, put_word};
use crate::words::{head_word, limit_word, needed_word};
use desk_core::Refusal;
use http_messages::HeadFault;
use http_routes::{Part, RequestFault};
use reports::outcome_word;
use serde_json::Value;
use snap_edit::EditKind;
use snap_tree::{NodeId, OutOfMemory, Text, TreeFault};
use std::alloc::Global;

// The body of a refusal of the machine.
#[tactic(auto, using(crate::proofs::NoFloats::refusal_has_no_float))]
pub(crate) fn refusal_body(alloc: Global, refusal: &Refusal) -> Result<Vec<u8>, OutOfMemory>
    ensures { IfOk result (λ b. b.items ≡ compact_text (refusal_data refusal.now)) }
{
    let value = refusal_value(alloc, refusal)?;
    Ok(value.to_vec(alloc)?)
}

#[tactic(auto, unfolding(crate::specs::Refusals::refusal_data))]
fn refusal_value(alloc: Global, refusal: &Refusal) -> Result<Value, OutOfMemory>
    ensures { IfOk result (λ v. view v ≡ refusal_data refusal.now) }
{
    Ok(Value::Object(refusal_members(alloc, refusal)?))
}

fn refusal_members(alloc: Global, refusal: &Refusal) -> Result<Members, OutOfMemory>
    ensures { IfOk result (λ m. members_view m.entries ≡ members refusal.now) }
{
    match refusal {
        Refusal::NoSite => plain(alloc, 11, "NoSite"),
        Refusal::SiteExists => plain(alloc, 12, "SiteExists"),
        Refusal::NotAllowed { needed } => {
            worded(alloc, "needed", needed_word(*needed), 13, "NotAllowed")
        }
        Refusal::NoPage => plain(alloc, 14, "NoPage"),
        Refusal::PageLimit { limit } => {
            worded(alloc, "limit", limit_word(*limit), 15, "PageLimit")
        }
        Refusal::StaleRevision { current, page } => stale(alloc, *current, page),
        Refusal::TreeFault { fault, page } => misgrown(alloc, *fault, page),
        Refusal::EditFault { index, kind } => misedited(alloc, *index, *kind),
        Refusal::NoTarget => plain(alloc, 19, "NoTarget"),
        Refusal::NotOpen { automatic } => {
            worded(alloc, "automatic", outcome_word(*automatic), 20, "NotOpen")
        }
        Refusal::SameHand => plain(alloc, 21, "SameHand"),
        Refusal::EvidenceMoved { current } => moved(alloc, *current),
        Refusal::KeeperFault => plain(alloc, 23, "KeeperFault"),
        Refusal::OutOfMemory => plain(alloc, 24, "OutOfMemory"),
    }
}

// The members of a refusal that tells one word more.
fn worded(
    alloc: Global,
    key: &str,
    word: &str,
    number: u8,
    name: &str,
) -> Result<Members, OutOfMemory>
    ensures { IfOk result (λ m. members_view m.entries ≡ with_member key.now (string word.now) (plain number name.now)) }
{
    let mut members = plain(alloc, number, name)?;
    put_word(&mut members, alloc, key, word)?;
    Ok(members)
}

fn moved(alloc: Global, current: [u8; 32]) -> Result<Members, OutOfMemory>
    ensures { IfOk result (λ m. members_view m.entries ≡ members (EvidenceMoved current)) }
{
    let digits = hex::encode(alloc, current)?;
    worded(alloc, "current", digits.as_str(), 22, "EvidenceMoved")
}

fn stale(alloc: Global, current: u64, page: &Option<Text>) -> Result<Members, OutOfMemory>
    ensures { IfOk result (λ m. members_view m.entries ≡ members (StaleRevision current page.now)) }
{
    let mut members = of_page(alloc, 16, "StaleRevision", page)?;
    put_number(&mut members, alloc, "current", current)?;
    Ok(members)
}

fn misgrown(alloc: Global, fault: TreeFault, page: &Option<Text>) -> Result<Members, OutOfMemory>
    ensures { IfOk result (λ m. members_view m.entries ≡ members (Misgrown fault page.now)) }
{
    let mut members = of_page(alloc, 17, "TreeFault", page)?;
    put_fault(&mut members, alloc, fault)?;
    Ok(members)
}

// Puts a fault of a tree in, by its number and its node.
fn put_fault(members: &mut Members, alloc: Global, fault: TreeFault) -> Result<(), OutOfMemory>
    ensures { OnOk result (members_view members.new.entries
        ≡ with_member (codes "fault") (whole (fault_number fault)) (with_member (codes "node") (whole (node_or_none fault)) (members_view members.old.entries))) }
{
    put_number(members, alloc, "node", u64::from(node_or_none(fault)))?;
    put_number(members, alloc, "fault", u64::from(fault.number()))
}

// The node of a fault, 0 where it has none.
fn node_or_none(fault: TreeFault) -> u32
    ensures { result ≡ node_or_none fault }
{
    match fault.node() {
        Some(NodeId(node)) => node,
        None => 0,
    }
}

fn misedited(alloc: Global, index: u32, kind: EditKind) -> Result<Members, OutOfMemory>
    ensures { IfOk result (λ m. members_view m.entries ≡ members (EditFault index kind)) }
{
    match kind {
        EditKind::Tree(fault) => regrown(alloc, index, fault),
        EditKind::NoNode
        | EditKind::NotElement
        | EditKind::NotText
        | EditKind::NumberTaken
        | EditKind::IntoItself
        | EditKind::RootMoved
        | EditKind::PlaceOut
        | EditKind::TooManyEdits => undone(alloc, index, kind.number()),
    }
}

// The members of the refusal of an edit that can't be done.
fn undone(alloc: Global, index: u32, kind: u8) -> Result<Members, OutOfMemory>
    ensures { IfOk result (λ m. members_view m.entries
        ≡ with_member (codes "index") (whole index) (with_member (codes "kind") (whole kind) (plain 18 (codes "EditFault")))) }
{
    let mut members = plain(alloc, 18, "EditFault")?;
    put_number(&mut members, alloc, "kind", u64::from(kind))?;
    put_number(&mut members, alloc, "index", u64::from(index))?;
    Ok(members)
}

// The members of the refusal of an edit after which the page has a fault.
fn regrown(alloc: Global, index: u32, fault: TreeFault) -> Result<Members, OutOfMemory>
    ensures { IfOk result (λ m. members_view m.entries ≡ members (EditFault index (Tree fault))) }
{
    let mut members = undone(alloc, index, 8)?;
    put_fault(&mut members, alloc, fault)?;
    Ok(members)
}

// The body of the refusal of a head.
#[tactic(auto, using(crate::proofs::NoFloats::head_has_no_float))]
pub(crate) fn head_body(alloc: Global, fault: HeadFault) -> Result<Vec<u8>, OutOfMemory>
    ensures { IfOk result (λ b. b.items ≡ compact_text (head_data fault)) }
{
    let value = head_value(alloc, fault)?;
    Ok(value.to_vec(alloc)?)
}

#[tactic(auto, unfolding(crate::specs::Refusals::head_data))]
fn head_value(alloc: Global, fault: HeadFault) -> Result<Value, OutOfMemory>
    ensures { IfOk result (λ v. view v ≡ head_data fault) }
{
    Ok(Value::Object(plain(alloc, fault.number(), head_word(fault))?))
}

// The body of the refusal of a message that makes no request.
#[tactic(auto, using(crate::proofs::NoFloats::request_has_no_float))]
pub(crate) fn request_body(alloc: Global, fault: RequestFault) -> Result<Vec<u8>, OutOfMemory>
    ensures { IfOk result (λ b. b.items ≡ compact_text (request_data fault)) }
{
    let value = request_value(alloc, fault)?;
    Ok(value.to_vec(alloc)?)
}

#[tactic(auto, unfolding(crate::specs::Refusals::request_data))]
fn request_value(alloc: Global, fault: RequestFault) -> Result<Value, OutOfMemory>
    ensures { IfOk result (λ v. view v ≡ request_data fault) }
{
    Ok(Value::Object(request_members(alloc, fault)?))
}

fn request_members(alloc: Global, fault: RequestFault) -> Result<Members, OutOfMemory>
    ensures { IfOk result (λ m. members_view m.entries ≡ request_members fault) }
{
    match fault {
        RequestFault::BadShape { part, place } => misshapen(alloc, part, place),
        RequestFault::NoRoute
        | RequestFault::WrongMethod
        | RequestFault::NoCaller
        | RequestFault::BadJson => plain(alloc, fault.number(), fault.name()),
    }
}

fn misshapen(alloc: Global, part: Part, place: u32) -> Result<Members, OutOfMemory>
    ensures { IfOk result (λ m. members_view m.entries ≡ request_members (BadShape part place)) }
{
    let mut members = plain(alloc, 10, "BadShape")?;
    put_number(&mut members, alloc, "place", u64::from(place))?;
    put_word(&mut members, alloc, "field", part.word())?;
    Ok(members)
}
