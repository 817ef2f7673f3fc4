//! What every book offers.
ghost use Rattle.std.specs.Prelude.{◌≡◌, ℕ, ◌≤◌, List, length};
ghost use Rattle.book.specs.Figures.{Figures, sendable_at, open_at};
ghost use Rattle.book.specs.Moves.{Answers, Taken, Put, MoveKeeps};

use crate::fault::BookFault;

/// A book of 0 to 16 accounts, numbered from 0. For each it means two numbers: what may still go out of it (sendable)
/// and what may still come in (open).
///
/// Code above a book rests on its meaning alone, and so holds of every stack of books.
pub trait Book {
    /// The meaning: the two numbers of each account, by its number.
    ghost means: { Self → List Figures };

    /// The standing rule on the book's own figures: true once it is made, and kept by every call.
    ghost standing: { Self → Type 0 };

    /// The number of accounts. It never changes.
    fn count(&self) -> usize
        ensures value { result ≡ length (means self.now) };

    /// What may still go out of the account, or 10^18 where that is less. It refuses 1.
    fn ask_sendable(&self, account: usize) -> Result<u64, BookFault>
        ensures answer { Answers (length (means self.now)) account (sendable_at (means self.now) account) result };

    /// What may still come into the account, or 10^18 where that is less. It refuses 1.
    fn ask_open(&self, account: usize) -> Result<u64, BookFault>
        ensures answer { Answers (length (means self.now)) account (open_at (means self.now) account) result };

    /// Lets the sum out of the account: sendable falls by it, and open rises. It refuses 1, 2, and 6 for a sum above
    /// sendable; the book is then the same value as before.
    fn take(&mut self, account: usize, sum: u64) -> Result<(), BookFault>
        ensures answer { Taken (means self.old) account sum result (means self.new) }
        ensures keeps { MoveKeeps means standing self.old result self.new };

    /// Lets the sum into the account: sendable rises by it, and open falls. It refuses 1, 2, and 7 for a sum above open;
    /// the book is then the same value as before.
    fn put(&mut self, account: usize, sum: u64) -> Result<(), BookFault>
        ensures answer { Put (means self.old) account sum result (means self.new) }
        ensures keeps { MoveKeeps means standing self.old result self.new };

    ghost few: { (b : Self) → length (means b) ≤ 16 };
}
