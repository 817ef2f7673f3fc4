//! Why a page makes no book.
ghost use Rattle.std.specs.Prelude.{◌≡◌, Some};
ghost use Rattle.pages.specs.Faults.{page_number, page_words};

use std::error::Error;
use std::fmt;

/// Why a page of bytes makes no book.
#[derive(Clone, Copy, Debug, PartialEq, Eq)]
pub enum PageFault {
    /// The length is not 9 bytes for each of 1 to 16 accounts.
    BadLength { length: usize },
    /// A record does not begin with the letter P: the first record that is not well formed.
    BadLetter { account: usize, letter: u8 },
    /// A figure is above 10^16: that of the first record that is not well formed.
    LargeFigure { account: usize, figure: u64 },
}

impl PageFault {
    // A table, as every fault has: most have fields, and so no discriminant to read.
    /// The number of the refusal.
    pub fn number(self) -> u8
        ensures value { result ≡ page_number self }
    {
        match self {
            PageFault::BadLength { .. } => 13,
            PageFault::BadLetter { .. } => 15,
            PageFault::LargeFigure { .. } => 2,
        }
    }
}

// The words are written out, since a derived text has no contract.
impl fmt::Display for PageFault {
    ghost output = { λ f. Some (page_words f) };

    fn fmt<W: fmt::Write>(&self, f: &mut fmt::Formatter<W>) -> fmt::Result {
        match *self {
            PageFault::BadLength { length } => write!(f, "a page of {length} bytes makes no book"),
            PageFault::BadLetter { account, letter } => write!(
                f,
                "record {account} begins with byte {letter}, and not with P"
            ),
            PageFault::LargeFigure { account, figure } => write!(
                f,
                "figure {figure} of record {account} is above 10^16"
            ),
        }
    }
}

impl Error for PageFault {}
