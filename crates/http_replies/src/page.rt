ghost use Rattle.std.specs.Prelude.{◌≡◌, IfOk};
ghost use Rattle.http_replies.specs.Shown.{page_text};

use keep_core::Page;
use reply_frames::{push, push_number};
use snap_json::write_snapshot;
use snap_tree::OutOfMemory;
use std::alloc::Global;

// The body of the reply that shows a page.
#[tactic(auto, unfolding(crate::specs::Shown::page_text))]
pub(crate) fn page_body(alloc: Global, page: &Page) -> Result<Vec<u8>, OutOfMemory>
    ensures { IfOk result (λ body. body.items ≡ page_text page.now) }
{
    let snapshot = write_snapshot(alloc, &page.tree)?;
    let mut body = Vec::new(alloc);
    push(&mut body, b"{\"rev\":")?;
    push_number(&mut body, page.head.rev)?;
    push(&mut body, b",\"snapshot\":")?;
    push(&mut body, snapshot.as_slice())?;
    push(&mut body, b"}")?;
    Ok(body)
}
