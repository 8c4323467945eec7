/// How the service of a link ended.
#[derive(Clone, Copy, Debug, PartialEq, Eq)]
pub enum LinkEnd {
    /// Its bytes end between two messages.
    Ended,
    /// Its bytes end within a message, for which nothing is done.
    Cut,
    /// The link is closed: after a head that is refused or a message that asks for it, or because a message
    /// couldn't be held for want of memory.
    Closed,
    /// The link met a fault.
    LinkFault,
}
