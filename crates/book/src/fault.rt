//! Why a book refuses a call.
ghost use Rattle.std.specs.Prelude.{◌≡◌, Some};
ghost use Rattle.book.specs.Faults.{reason_number, reason_words, book_words};

use std::error::Error;
use std::fmt;

/// Why a book refused a call: the account and the sum that were named in it, and the reason. A question names the sum 0.
#[derive(Clone, Copy, Debug, PartialEq, Eq)]
pub struct BookFault {
    pub account: usize,
    pub sum: u64,
    pub reason: Reason,
}

/// What stood against a call.
#[derive(Clone, Copy, Debug, PartialEq, Eq)]
pub enum Reason {
    /// The account is not in the book.
    NoAccount,
    /// The sum is 0 or above 10^16.
    BadSum,
    /// The sum is above what the account may still send.
    AboveSendable,
    /// The sum is above what may still come into the account.
    AboveOpen,
}

impl Reason {
    /// The refusal for this reason of a call that named this account and sum.
    pub fn at(self, account: usize, sum: u64) -> BookFault
        ensures value { result ≡ record { account = account; sum = sum; reason = self } }
    {
        BookFault {
            account,
            sum,
            reason: self,
        }
    }
}

impl BookFault {
    // A table, as every fault has: most have fields, and so no discriminant to read.
    /// The number of the refusal.
    pub fn number(self) -> u8
        ensures value { result ≡ reason_number self.reason }
    {
        match self.reason {
            Reason::NoAccount => 1,
            Reason::BadSum => 2,
            Reason::AboveSendable => 6,
            Reason::AboveOpen => 7,
        }
    }
}

// The words are written out, since a derived text has no contract.
impl fmt::Display for Reason {
    ghost output = { λ r. Some (reason_words r) };

    fn fmt<W: fmt::Write>(&self, f: &mut fmt::Formatter<W>) -> fmt::Result {
        f.write_str(match self {
            Reason::NoAccount => "the account is not in the book",
            Reason::BadSum => "the sum is 0 or above 10^16",
            Reason::AboveSendable => "the sum is above what the account may send",
            Reason::AboveOpen => "the sum is above what may come into the account",
        })
    }
}

// The words are written out, since a derived text has no contract.
impl fmt::Display for BookFault {
    ghost output = { λ e. Some (book_words e) };

    fn fmt<W: fmt::Write>(&self, f: &mut fmt::Formatter<W>) -> fmt::Result {
        let reason = self.reason;
        write!(f, "account {}, sum {}: {reason}", self.account, self.sum)
    }
}

impl Error for BookFault {}
