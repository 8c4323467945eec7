ghost use Rattle.std.specs.Prelude.{◌≡◌};
ghost use Rattle.http_messages.specs.Faults.{number, status};

/// Why a message is refused by its head. The connection is closed after it.
#[derive(Clone, Copy, Debug, PartialEq, Eq)]
pub enum HeadFault {
    /// The head block isn't a head, or its content-length is no length.
    BadHead,
    /// The first 16,384 bytes don't hold a whole head block.
    HeadTooLarge,
    /// The head has a transfer-encoding, which isn't served.
    TransferEncoding,
    /// A PUT or POST has no content-length.
    LengthRequired,
    /// The content-length exceeds 8,388,608.
    BodyTooLarge,
}

impl HeadFault {
    /// Its number in the order of refusals, from 1.
    pub fn number(self) -> u8
        ensures { result ≡ number self }
    {
        match self {
            HeadFault::BadHead => 1,
            HeadFault::HeadTooLarge => 2,
            HeadFault::TransferEncoding => 3,
            HeadFault::LengthRequired => 4,
            HeadFault::BodyTooLarge => 5,
        }
    }

    /// The status code of the reply (RFC 9110, section 15; RFC 6585, section 5).
    pub fn status(self) -> u16
        ensures { result ≡ status self }
    {
        match self {
            HeadFault::BadHead => 400,
            HeadFault::HeadTooLarge => 431,
            HeadFault::TransferEncoding => 501,
            HeadFault::LengthRequired => 411,
            HeadFault::BodyTooLarge => 413,
        }
    }
}
