use std::time::Duration;

/// How long a link waits for its peer.
#[derive(Clone, Copy, Debug, PartialEq, Eq)]
pub struct Patience {
    /// The most that one read or one write waits.
    pub once: Duration,
    /// The most that the reads of one message wait in all, and the writes of one reply.
    pub in_all: Duration,
}

impl Patience {
    /// 30 seconds for a read or a write, and five minutes for a message or a reply.
    pub fn usual() -> Self {
        Patience {
            once: Duration::from_secs(30),
            in_all: Duration::from_secs(300),
        }
    }

    /// A second for a read, and two in all: for what a peer still sends when its link is closed.
    pub(crate) fn of_closing() -> Self {
        Patience {
            once: Duration::from_secs(1),
            in_all: Duration::from_secs(2),
        }
    }
}
