//! Books that can be made anew.

use book_forty::Forty;
use fixture_rules::Marks;
use fixture_talks::Wrong;
use rule_book::Thirty;
use rule_core::RuleBook;
use std::alloc::Global;

/// A book that can be made anew.
pub trait Made: RuleBook + Send + Drop {
    fn made() -> Self;
}

impl Made for Thirty {
    fn made() -> Self {
        Thirty::new()
    }
}

impl Made for Forty {
    fn made() -> Self {
        Forty::new()
    }
}

impl Made for Marks {
    fn made() -> Self {
        Marks::new()
    }
}

/// So many books.
pub fn made_books<B: Made>(alloc: Global, count: u64) -> Result<Vec<B>, Wrong> {
    let mut books = Vec::new(alloc);
    for _ in 0..count {
        books.push(B::made())?;
    }
    Ok(books)
}

/// How many judgings books have made.
pub fn calls_of<B: RuleBook>(books: &[B]) -> u64 {
    let mut calls = 0u64;
    for book in books {
        calls = calls.saturating_add(book.calls());
    }
    calls
}
