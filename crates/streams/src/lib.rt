//! What bytes are read from and written to: `Source` and `Sink`, each with a count of faults. `MemSource` and
//! `MemSink` are those in memory, which tell their bytes; `Reader` and `Writer` are those over a stream of the
//! system. What reads and writes do is said of whatever tells bytes, alone or among other things.
#![tactic(auto)]

mod failed;
mod mem_sink;
mod mem_source;
mod reading;
mod sink;
mod source;
mod stream;
mod writing;

pub use failed::Failed;
pub use mem_sink::MemSink;
pub use mem_source::{MemSource, copy_front};
pub use reading::{ReadFault, read_all};
pub use sink::Sink;
pub use source::Source;
pub use stream::{Reader, Writer};
pub use writing::write_all;
