ghost use Rattle.std.specs.Prelude.{◌≡◌, ◌≢◌, ℕ, ◌<◌, ◌≤◌, length, slice_index};
ghost use Rattle.segment_routes.specs.Paths.{path, question};

/// The path of a target: its bytes up to the first question mark, or all (RFC 9112, section 3.2.1). Nothing is
/// decoded.
#[tactic(auto, using(crate::proofs::Cuts::before_first))]
pub fn path_of(target: &[u8]) -> &[u8]
    ensures { result.now ≡ path target.now }
{
    let (front, _) = target.split_at(question_mark(target));
    front
}

// The place of the first question mark, or the end.
fn question_mark(bytes: &[u8]) -> usize
    ensures within { result ≤ length bytes.now }
    ensures before { (k : ℕ) → k < result → slice_index bytes.now k ≢ question }
    ensures found { result < length bytes.now → slice_index bytes.now result ≡ question }
{
    for (at, b) in bytes.iter().enumerate() {
        if *b == b'?' {
            return at;
        }
    }
    bytes.len()
}
