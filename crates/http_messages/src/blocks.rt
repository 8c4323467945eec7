ghost use Rattle.std.specs.Prelude.{◌≡◌, ◌≤◌, IfSome, length};
ghost use Rattle.http_messages.specs.Blocks.{begins_mark, block_end, window, MayStart};

/// The most bytes of a head block.
pub const MOST_HEAD: usize = 16_384;

// How many bytes the end of a line and an empty line have.
pub(crate) const MARK: usize = 4;

// The place after the first CR LF CR LF. None begins before the place where the search starts.
#[tactic(auto, using(crate::proofs::Marks::found, crate::proofs::Marks::found_within, crate::proofs::Marks::goes_on, crate::proofs::Marks::not_found))]
pub(crate) fn block_end_from(bytes: &[u8], start: usize) -> Option<usize>
    requires start { start ≤ length bytes.now }
    requires may_start { MayStart start bytes.now }
    ensures value { result ≡ block_end bytes.now }
    ensures within { IfSome result (λ n. n ≤ length bytes.now) }
{
    let mut at = start;
    while at < bytes.len() {
        let (_, rest) = bytes.split_at(at);
        if begins_mark(rest) {
            return Some(at + MARK);
        }
        at += 1;
    }
    None
}

fn begins_mark(bytes: &[u8]) -> bool
    ensures value { result ≡ begins_mark bytes.now }
{
    bytes.starts_with(b"\r\n\r\n")
}

// The first 16,384 bytes, or all where there are fewer.
#[tactic(auto, using(std::proofs::lemmas::List::take_min), unfolding(crate::specs::Blocks::window))]
pub(crate) fn window(bytes: &[u8]) -> &[u8]
    ensures { result.now ≡ window bytes.now }
{
    let (front, _) = bytes.split_at(MOST_HEAD.min(bytes.len()));
    front
}
