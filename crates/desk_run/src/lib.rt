//! What a run of the program does: `run` does what a command's words say, over any source, sinks, keeper, door and
//! books of rules; its contract says what each status means. Start with [`run`]. The program, `act_desk`, gives it the
//! streams of the process, a keeper and a TCP door.
#![tactic(auto)]

mod arguments;
mod books;
mod cases;
mod generate;
mod refreshing;
mod running;
mod serve;
mod show;

pub use arguments::{
    BookName, StorePlace, Task, book_named, read_arguments, store_named, words_in,
};
pub use audit_run::{Found, Status, fault_line, status_of, tell};
pub use books::{MadeBook, made_books};
pub use running::run;
