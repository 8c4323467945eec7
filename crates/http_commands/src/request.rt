ghost use Rattle.std.specs.Prelude.{◌≡◌, IfOk};
ghost use Rattle.desk_core.specs.Fitting.{FitsRequest};
ghost use Rattle.http_commands.specs.Requests.{request_of};
ghost use Rattle.http_commands.specs.Fitting.{IsWeb};

use crate::command::command_of;
use crate::unasked::Unasked;
use desk_core::Command;
use http_messages::Head;
use http_routes::{Call, RequestFault, Table, call_of};
use rule_core::RuleBook;
use snap_tree::{OutOfMemory, Text};
use std::alloc::Global;

/// What a message asks of the desk, and who asks.
#[derive(Debug, Drop)]
pub struct Asked {
    pub caller: Text,
    pub command: Command,
}

/// The request that a message makes, by its head and its body; the inner `Err` is the first refusal that
/// holds, in the order of `RequestFault`.
///
/// Of the parts that are out of shape the first is told: the revision, which is exactly one field `x-rev` of
/// 1 to 19 digits and at most 9,223,372,036,854,775,807; the body, where it is no object; then its members in
/// the order of the definitions. The rules that may be judged are the atomic ones of the book.
///
/// The table of routes is absent where there was no memory for it: no message is read then.
pub fn request_of<B: RuleBook>(
    alloc: Global,
    table: Option<&Table>,
    book: &B,
    head: &Head,
    body: &[u8],
) -> Result<Result<Asked, RequestFault>, OutOfMemory>
    ensures exact { IfOk result (λ asked. asked ≡ request_of B.book.infos head.now body.now) }
    ensures fits { IfOk result (λ asked. IfOk asked (λ q. FitsRequest B.book (record { caller = q.caller; command = q.command }))) }
{
    read_request(alloc, table, book, head, body)
}

#[tactic(auto, unfolding(crate::specs::Requests::request_of))]
fn read_request<B: RuleBook>(
    alloc: Global,
    table: Option<&Table>,
    book: &B,
    head: &Head,
    body: &[u8],
) -> Result<Result<Asked, RequestFault>, OutOfMemory>
    ensures exact { IfOk result (λ asked. asked ≡ request_of B.book.infos head.now body.now) }
    ensures web { IfOk result (λ asked. IfOk asked (λ q. IsWeb q.command)) }
{
    let Some(table) = table else {
        return Err(OutOfMemory);
    };
    let Call { route, caller } = match call_of(alloc, table, head)? {
        Ok(call) => call,
        Err(fault) => return Ok(Err(fault)),
    };
    match command_of(alloc, book, head, body, route) {
        Ok(command) => Ok(Ok(Asked { caller, command })),
        Err(Unasked::Refused(fault)) => Ok(Err(fault)),
        Err(Unasked::OutOfMemory) => Err(OutOfMemory),
    }
}
