ghost use Rattle.std.specs.Prelude.{◌≡◌, vec_len, IfOk};

use book_forty::Forty;
use rule_book::Thirty;
use rule_core::RuleBook;
use std::alloc::{AllocError, Global};

// How many books the program has, and so how many workers it may be told.
const MOST_WORKERS: usize = 16;

/// A book of rules that the program makes anew.
pub trait MadeBook: RuleBook + Send + Drop {
    /// A book that has judged nothing yet.
    fn made() -> Self
        ensures { Self.calls result ≡ 0 };
}

impl MadeBook for Thirty {
    fn made() -> Self {
        Thirty::new()
    }
}

impl MadeBook for Forty {
    fn made() -> Self {
        Forty::new()
    }
}

/// The sixteen books that judge, as many as an import may have at work.
pub fn made_books<B: MadeBook>(alloc: Global) -> Result<Vec<B>, AllocError>
    ensures { IfOk result (λ books. vec_len books ≡ 16) }
{
    let mut books = Vec::new(alloc);
    for _ in 0..MOST_WORKERS {
        books.push(B::made())?;
    }
    Ok(books)
}
