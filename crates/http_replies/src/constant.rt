ghost use Rattle.std.specs.Prelude.{◌≡◌, List};
ghost use Rattle.rule_core.specs.declared.info.RuleInfo.{RuleInfo};
ghost use Rattle.http_replies.specs.Answers.{answer_bytes, no_memory};

/// The reply for want of memory, which takes none.
#[tactic(auto, using(crate::proofs::NoMemory::closing, crate::proofs::NoMemory::going_on))]
pub fn no_memory(closes: bool) -> &'static [u8]
    ensures { (infos : List RuleInfo) → result.now ≡ answer_bytes infos no_memory closes }
{
    if closes {
        b"HTTP/1.1 507 Insufficient Storage\r\ncontent-type: application/json\r\ncontent-length: 37\r\nconnection: close\r\n\r\n{\"number\":24,\"refused\":\"OutOfMemory\"}"
    } else {
        b"HTTP/1.1 507 Insufficient Storage\r\ncontent-type: application/json\r\ncontent-length: 37\r\n\r\n{\"number\":24,\"refused\":\"OutOfMemory\"}"
    }
}
