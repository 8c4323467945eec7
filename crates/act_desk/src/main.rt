//! The accessibility audit desk, as a program: `act_desk STORE COMMAND ..`, and by the book of forty rules
//! `act_desk forty STORE COMMAND ..`. What a command does stands in `desk_run`, and
//! over a store in `store_run`, over any source, sinks, keeper, door and books of rules. The adapters over standard input,
//! output and error, over TCP and over a file, and what stands here, are the trusted edge.
#![tactic(auto)]

ghost use Rattle.std.specs.Prelude.{◌≡◌, None};

use book_forty::Forty;
use desk_run::{
    BookName, Found, MadeBook, StorePlace, Task, made_books, read_arguments, run, tell,
};
use keep_core::MemoryKeeper;
use links::Door;
use rule_book::Thirty;
use snap_tree::{List, Text};
use sqlite::Unknown;
use std::process::ExitCode;
use std::thread::Threads;
use store_run::run_file;
use streams::{Reader, Writer};
use tcp_door::{Patience, TcpDoor};

fn main(rt: HostRuntime) -> ExitCode {
    let mut door = TcpDoor::new(&rt, Patience::usual());
    let ended = match read_arguments(&rt) {
        Ok(task) => match task.book {
            BookName::Thirty => done_by::<Thirty, _, _>(&rt, &rt, &mut door, &task),
            BookName::Forty => done_by::<Forty, _, _>(&rt, &rt, &mut door, &task),
        },
        Err(found) => Err(found),
    };
    match ended {
        Ok(number) => ExitCode::from(number),
        Err(found) => ending(&rt, &found),
    }
}

// Does a task by the books of one type, and gives the status that `run` or `run_file` ends with, or what is found before.
fn done_by<B: MadeBook, R: Threads + Sync, D: Door>(
    system: &HostRuntime,
    threads: &R,
    door: &mut D,
    task: &Task,
) -> Result<u8, Found>
    requires unheard { (D.told door.old).heard ≡ None }
{
    let alloc = system.alloc();
    let Ok(mut books) = made_books::<B>(alloc) else {
        return Err(Found::NoMemory);
    };
    let mut input = Reader::new(system.stdin());
    let mut out = Writer::new(system.stdout());
    let mut err = Writer::new(system.stderr());
    let Task { store, words, .. } = task;
    match store {
        StorePlace::Memory => {
            let mut kept = MemoryKeeper::new(alloc, List::from_vec(Vec::new(alloc)));
            Ok(run(
                threads, alloc, words, &mut input, &mut out, &mut err, &mut kept, door, &mut books,
            ))
        }
        StorePlace::File { path } => Ok(run_file(
            system,
            threads,
            Unknown,
            path.as_str(),
            words,
            &mut input,
            &mut out,
            &mut err,
            door,
            &mut books,
        )),
    }
}

// The program ends by what is found before a run.
fn ending(rt: &HostRuntime, found: &Found) -> ExitCode {
    let mut out = Writer::new(rt.stdout());
    let mut err = Writer::new(rt.stderr());
    ExitCode::from(tell(&mut out, &mut err, found).number())
}
