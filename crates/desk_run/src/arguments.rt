ghost use Rattle.std.specs.Prelude.{◌≡◌, ◌<◌, length, map, IfOk, IfErr};
ghost use Rattle.std.specs.String.{string_bytes};
ghost use Rattle.std.specs.Vec.Iter.{into_iter_items};
ghost use Rattle.desk_run.specs.Arguments.{IsRefusal, Places, Starts, named_book};

use audit_run::Found;
use snap_tree::{List, OutOfMemory, Text};
use std::alloc::Global;
use std::env;
use std::env::{Args, FillError};
use std::rt::Env;
use std::str::from_utf8;

// The longest path that a system takes, in bytes.
const MOST_PATH: usize = 4_096;

// The word for the book of forty.
const FORTY: &[u8; 5] = b"forty";

/// The name of a book of rules that the program judges by.
#[derive(Clone, Copy, Debug, PartialEq, Eq)]
pub enum BookName {
    Thirty,
    Forty,
}

/// Where a store is.
#[derive(Drop)]
pub enum StorePlace {
    /// In the program's memory.
    Memory,
    /// In a file.
    File { path: Text },
}

/// What the program is asked: to do what the words of a command say, over a store, by a book of rules.
#[derive(Drop)]
pub struct Task {
    pub book: BookName,
    pub store: StorePlace,
    /// The words of a command, one or more.
    pub words: List<Text>,
}

/// What a program's arguments give: the book, the store's place, and the words of a command. The word `forty` before the
/// store names a book, so a store of that name is given as `./forty`. The store's name is looked at before the words behind
/// it: where it is no text, or is longer than a path may be, that is a fault of the store, whatever stands there. It isn't
/// opened here, so that nothing is made on a disk where words are missing.
/// No contract can say what the arguments are: `book_named`, `store_named` and `words_in` say what each gives.
pub fn read_arguments<R: Env + AllocGlobal>(rt: &R) -> Result<Task, Found>
    ensures some { IfOk result (λ g. 0 < length g.words) }
    ensures refused { IfErr result IsRefusal }
{
    let book = first_book(rt);
    let store = place_named(rt, store_at(book))?;
    let mut args = env::args(rt)?;
    if book == BookName::Forty {
        args.next();
    }
    let words = words_in(rt.alloc(), args)?;
    Ok(Task { book, store, words })
}

// The book that the second argument names.
fn first_book<R: Env>(rt: &R) -> BookName {
    let mut word = [0; FORTY.len()];
    match rt.arg(1, &mut word) {
        Ok(size) => book_named(&word[..size]),
        Err(_) => BookName::Thirty,
    }
}

// Where the store's name stands among the arguments.
fn store_at(book: BookName) -> usize {
    match book {
        BookName::Thirty => 1,
        BookName::Forty => 2,
    }
}

// The place that the argument with this number names.
fn place_named<R: Env + AllocGlobal>(rt: &R, at: usize) -> Result<StorePlace, Found>
    ensures { IfErr result IsRefusal }
{
    let mut name = [0; MOST_PATH];
    match rt.arg(at, &mut name) {
        Ok(size) => store_named(rt.alloc(), &name[..size]),
        Err(FillError::TooLong) => Err(Found::StoreFault),
        Err(FillError::NotPresent) => Err(Found::Usage),
    }
}

/// The book that a word before the store names: `forty` that of forty rules. Any other word is the store's name, and the
/// book of thirty judges.
pub fn book_named(word: &[u8]) -> BookName
    ensures { result ≡ named_book word.now }
{
    if word == FORTY.as_slice() {
        BookName::Forty
    } else {
        BookName::Thirty
    }
}

/// The store of a name: `-` is the program's memory, and all else a file. A name that is no text is a fault of the
/// store.
pub fn store_named(alloc: Global, name: &[u8]) -> Result<StorePlace, Found>
    ensures place { Places name.now result }
    ensures refused { IfErr result IsRefusal }
{
    let Ok(name) = from_utf8(name) else {
        return Err(Found::StoreFault);
    };
    if name == "-" {
        return Ok(StorePlace::Memory);
    }
    match Text::from_str(alloc, name) {
        Ok(path) => Ok(StorePlace::File { path }),
        Err(OutOfMemory) => Err(Found::NoMemory),
    }
}

/// The words of a command among a program's arguments, which stand after the program's name and the store's; behind the
/// word for a book, after that word and the store's name.
/// `Usage` comes where none stand there, and `NoMemory` for want of memory.
pub fn words_in(alloc: Global, mut args: Args) -> Result<List<Text>, Found>
    ensures { Starts (map string_bytes (into_iter_items args)) result }
{
    let (Some(_program), Some(_store)) = (args.next(), args.next()) else {
        return Err(Found::Usage);
    };
    let Ok(words) = texts_of(alloc, args) else {
        return Err(Found::NoMemory);
    };
    if words.is_empty() {
        return Err(Found::Usage);
    }
    Ok(List::from_vec(words))
}

// The same texts, in order.
fn texts_of(alloc: Global, strings: Args) -> Result<Vec<Text>, OutOfMemory>
    ensures { IfOk result (λ texts. texts.items ≡ map string_bytes (into_iter_items strings)) }
{
    let mut texts = Vec::new(alloc);
    for string in strings {
        texts.push(Text::from_string(string))?;
    }
    Ok(texts)
}
