//! The book that lends, over any book.
#![tactic(auto)]

use book::{Book, MOST_ACCOUNTS};
use line::Line;

mod calls;
mod line;

/// A book that lends to each account up to its limit, over any book. What an account can send below is used up first, and
/// what comes in repays first.
#[derive(Drop)]
pub struct CreditBook<B: Book> {
    below: B,
    // For every account that a book can have: a layer asks for no memory, and so can always be made.
    lines: [Line; MOST_ACCOUNTS],
}
