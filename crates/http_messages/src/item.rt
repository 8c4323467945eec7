ghost use Rattle.std.specs.Prelude.{◌≡◌};
ghost use Rattle.http_messages.specs.Items.{refused};

use crate::fault::HeadFault;
use crate::head::Head;
use texts::List;

/// A whole request: its head, and the bytes of its body.
#[derive(Debug, Drop)]
pub struct Message {
    pub head: Head,
    pub body: List<u8>,
}

/// What comes over a connection: a message, or a head that is refused.
#[derive(Debug, Drop)]
pub enum Sent {
    Asked(Message),
    Refused(HeadFault),
}

/// One thing that comes over a connection, and whether the connection is closed after its reply.
#[derive(Debug, Drop)]
pub struct Item {
    pub sent: Sent,
    pub closes: bool,
}

impl Item {
    // A refused head, after which the connection is closed.
    pub(crate) fn refused(fault: HeadFault) -> Self
        ensures { result ≡ refused fault }
    {
        Item {
            sent: Sent::Refused(fault),
            closes: true,
        }
    }
}
