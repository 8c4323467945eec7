use crate::reply::Reply;
use keep_core::Change;

/// What a request that isn't refused comes to: the change of the tables, where there is one, and the
/// reply.
#[derive(Drop)]
pub struct Decided {
    pub change: Option<Change>,
    pub reply: Reply,
}
