ghost use Rattle.std.specs.Prelude.{◌≡◌};
ghost use Rattle.audit_run.specs.Status.{status_number, status_line};

/// How the program ends.
#[derive(Clone, Copy, Debug, PartialEq, Eq)]
pub enum Status {
    /// The command is done: of an audit, no final outcome is failed; of a serve, all connections are served.
    Done,
    /// A page was audited, and some final outcome is failed; or cases were, and some outcome is another than was expected.
    SomeFailed,
    /// The words are no command, want more workers than there are, or name a site that isn't kept.
    UsageFault,
    /// The source met a fault.
    ReadFault,
    /// A sink met a fault.
    WriteFault,
    /// The input is no snapshot, or no list of cases.
    SnapshotFault,
    /// The store can't be opened, read or refreshed.
    StoreFault,
    /// The door met a fault.
    ListenFault,
    NoMemory,
}

impl Status {
    /// The number that the program ends with.
    pub fn number(self) -> u8
        ensures { result ≡ status_number self }
    {
        match self {
            Status::Done => 0,
            Status::SomeFailed => 1,
            Status::UsageFault => 2,
            Status::ReadFault => 3,
            Status::WriteFault => 4,
            Status::SnapshotFault => 5,
            Status::StoreFault => 6,
            Status::ListenFault => 7,
            Status::NoMemory => 8,
        }
    }

    /// The line that says so on standard error: empty where the command is done, and for a snapshot's
    /// fault, which has a line of its own.
    pub fn line(self) -> &'static str
        ensures { result.now ≡ status_line self }
    {
        match self {
            Status::Done | Status::SomeFailed | Status::SnapshotFault => "",
            Status::UsageFault => "usage fault\n",
            Status::ReadFault => "read fault\n",
            Status::WriteFault => "write fault\n",
            Status::StoreFault => "store fault\n",
            Status::ListenFault => "listen fault\n",
            Status::NoMemory => "no memory\n",
        }
    }
}
