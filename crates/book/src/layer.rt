//! What the books that stand over another book have in common.
ghost use Rattle.book.specs.Layers.{Capped};

use crate::limits::{LARGEST_LIMIT, MOST_ACCOUNTS};

/// A row of limits or rooms, one number for each account a book can have. A number above 10^15 counts as 10^15. An
/// account for which the row is too short has 0, and what is past sixteen is not used.
pub fn capped(row: &[u64]) -> [u64; MOST_ACCOUNTS]
    ensures value { Capped row.now result }
{
    std::array::from_fn(|k| row.get(k).copied().unwrap_or(0).min(LARGEST_LIMIT))
}
