//! The bounds of every book.

/// A book has at most so many accounts.
pub const MOST_ACCOUNTS: usize = 16;

/// The largest sum of one take or put, in cents.
pub const LARGEST_SUM: u64 = 10_000_000_000_000_000;

/// The largest figure of a table or page book, in cents.
pub const LARGEST_FIGURE: u64 = 10_000_000_000_000_000;

/// The largest answer to a question: a larger number is answered with this one.
pub const LARGEST_ANSWER: u64 = 1_000_000_000_000_000_000;

/// The largest limit or room that a layer begins with, in cents.
pub const LARGEST_LIMIT: u64 = 1_000_000_000_000_000;
