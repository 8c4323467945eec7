ghost use Rattle.std.specs.Prelude.{◌≡◌, ◌<◌, false, None, vec_len};
ghost use Rattle.sqlite_wal.specs.Files.{image_at};
ghost use Rattle.desk_run.specs.Run.{outside_of};
ghost use Rattle.store_run.specs.Opening.{unkept, refusal_by, RunsOver, RunsFile};

use crate::refusal::{StoreRefusal, refuse};
use crate::running::run_store;
use keep_sql::SqlKeeper;
use links::Door;
use rule_core::RuleBook;
use snap_tree::{List, Text};
use sqlite::{Alter, Connection, Error, ErrorCode, FileFrom, FileStore, Start};
use sqlite_trees::store::Store;
use std::alloc::Global;
use std::thread::Threads;
use streams::{Sink, Source};

/// Opens the file of this name, which is made where there is none, and then does what `run_store` does over it, with the
/// same status. `start` stands for what the file and its log hold: the clauses hold for any such contents. It
/// says also what is supposed of a torn write: `Unknown`, that each byte is then old or new, and `Wary` nothing.
///
/// Where the file can't be opened nothing is done but that `err` says `store fault`, and the status is 6, or 8 and `no memory`
/// for want of memory. Where such a line can't be written the status is 4. There is one book or more, and the door doesn't
/// listen yet.
pub fn run_file<
    R: Threads + Sync,
    I: Source,
    O: Sink,
    E: Sink,
    F: Start,
    D: Door,
    B: RuleBook + Send,
>(
    system: &HostRuntime,
    rt: &R,
    start: F,
    path: &str,
    words: &List<Text>,
    input: &mut I,
    out: &mut O,
    err: &mut E,
    door: &mut D,
    books: &mut Vec<B>,
) -> u8
    requires some { 0 < vec_len books.old }
    requires unheard { (D.told door.old).heard ≡ None }
    ensures { RunsFile ⟦<FileStore<FileFrom<F>> as Store>⟧ (image_at F.Start) B.book words.now
        (outside_of I.Source O.Sink E.Sink input.old out.old err.old)
        (outside_of I.Source O.Sink E.Sink input.new out.new err.new)
        (unkept D.Door D.Conn.Link B.calls door.old books.old.items)
        (unkept D.Door D.Conn.Link B.calls door.new books.new.items)
        result }
{
    let alloc = system.alloc();
    match Connection::open_from(system, path, false, start) {
        Ok(conn) => run_over(rt, alloc, words, input, out, err, conn, door, books),
        Err((error, _)) => refuse(alloc, err, refusal_by(&error)),
    }
}

// Does what `run_store` does over a connection, and lets it go.
fn run_over<
    R: Threads + Sync,
    I: Source,
    O: Sink,
    E: Sink,
    S: Alter + Drop,
    D: Door,
    B: RuleBook + Send,
>(
    rt: &R,
    alloc: Global,
    words: &List<Text>,
    input: &mut I,
    out: &mut O,
    err: &mut E,
    conn: Connection<S>,
    door: &mut D,
    books: &mut Vec<B>,
) -> u8
    requires idle { conn.in_transaction ≡ false }
    requires some { 0 < vec_len books.old }
    requires unheard { (D.told door.old).heard ≡ None }
    ensures { RunsOver S.Store B.book words.now conn
        (outside_of I.Source O.Sink E.Sink input.old out.old err.old)
        (outside_of I.Source O.Sink E.Sink input.new out.new err.new)
        (unkept D.Door D.Conn.Link B.calls door.old books.old.items)
        (unkept D.Door D.Conn.Link B.calls door.new books.new.items)
        result }
{
    let mut keeper = SqlKeeper::new(conn);
    run_store(rt, alloc, words, input, out, err, &mut keeper, door, books)
}

// Why a file isn't opened.
fn refusal_by(error: &Error) -> StoreRefusal
    ensures { result ≡ refusal_by error.now }
{
    match error {
        Error::SqliteFailure(ErrorCode::OutOfMemory) => StoreRefusal::NoMemory,
        _ => StoreRefusal::StoreFault,
    }
}
