use snap_tree::{List, Text};

/// What a run has found, before it writes.
#[derive(Drop)]
pub enum Found {
    /// A command has done its work: what it writes, and whether some outcome is failed, or is another than was expected.
    Finished { output: List<u8>, failed: bool },
    /// All connections are served.
    Served,
    /// The words are no command, want more workers than there are, or name a site that isn't kept.
    Usage,
    /// The source met a fault.
    ReadFault,
    /// The input is no snapshot, or no list of cases: the line that names the fault.
    NotSnapshot { line: Text },
    /// The store can't be opened, read or refreshed.
    StoreFault,
    /// The door met a fault.
    ListenFault,
    NoMemory,
}
