//! What every book asks of a call before it looks at its figures.
ghost use Rattle.book.specs.Moves.{CheckedAccount, Checked};

use crate::fault::{BookFault, Reason};
use crate::limits::LARGEST_SUM;

/// Whether a book of so many accounts has `account`, for a question. It refuses 1.
pub fn check_account(accounts: usize, account: usize) -> Result<(), BookFault>
    ensures answer { CheckedAccount accounts account result }
{
    if account >= accounts {
        return Err(Reason::NoAccount.at(account, 0));
    }
    Ok(())
}

// Account and sum stay two parameters, here and in every book: each caller has them apart.
/// Whether a book of so many accounts may move `sum` at `account` at all. It refuses 1 for an account that is not in the
/// book, then 2 for a sum of 0 or above 10^16.
pub fn check_move(accounts: usize, account: usize, sum: u64) -> Result<(), BookFault>
    ensures answer { Checked accounts account sum result }
{
    if account >= accounts {
        return Err(Reason::NoAccount.at(account, sum));
    }
    if sum == 0 || sum > LARGEST_SUM {
        return Err(Reason::BadSum.at(account, sum));
    }
    Ok(())
}
