ghost use Rattle.std.specs.Prelude.{◌≡◌};
ghost use Rattle.http_routes.specs.Faults.{number, status, name};

use crate::part::Part;

/// Why a message makes no request: the first that holds, in this order. After it the connection goes on, unless
/// the message's head closes it: one of version 1.0, or with the field `connection: close`.
#[derive(Clone, Copy, Debug, PartialEq, Eq)]
pub enum RequestFault {
    /// No route has the path, or a name in it isn't of the form.
    NoRoute,
    /// The route hasn't this method.
    WrongMethod,
    /// There isn't exactly one field `x-caller`, or its value isn't a name.
    NoCaller,
    /// A body that is read isn't JSON.
    BadJson,
    /// The revision or the body is out of shape: the first part that is.
    BadShape {
        part: Part,
        /// For a part within a list its place there, counted from 1; else 0.
        place: u32,
    },
}

impl RequestFault {
    /// Its number in the order of refusals, from 6.
    pub fn number(self) -> u8
        ensures { result ≡ number self }
    {
        match self {
            RequestFault::NoRoute => 6,
            RequestFault::WrongMethod => 7,
            RequestFault::NoCaller => 8,
            RequestFault::BadJson => 9,
            RequestFault::BadShape { .. } => 10,
        }
    }

    /// The status code of the reply (RFC 9110, section 15.5).
    pub fn status(self) -> u16
        ensures { result ≡ status self }
    {
        match self {
            RequestFault::NoRoute => 404,
            RequestFault::WrongMethod => 405,
            RequestFault::NoCaller => 401,
            RequestFault::BadJson => 400,
            RequestFault::BadShape { .. } => 422,
        }
    }

    /// Its name, as the reply has it: its variant's.
    pub fn name(self) -> &'static str
        ensures { result.now ≡ name self }
    {
        match self {
            RequestFault::NoRoute => "NoRoute",
            RequestFault::WrongMethod => "WrongMethod",
            RequestFault::NoCaller => "NoCaller",
            RequestFault::BadJson => "BadJson",
            RequestFault::BadShape { .. } => "BadShape",
        }
    }
}
