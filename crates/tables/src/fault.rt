//! Why a row makes no book.
ghost use Rattle.std.specs.Prelude.{◌≡◌, Some};
ghost use Rattle.tables.specs.Faults.{row_number, row_words};

use std::error::Error;
use std::fmt;

/// Why a row of figures makes no book.
#[derive(Clone, Copy, Debug, PartialEq, Eq)]
pub enum RowFault {
    /// The row has no figure, or more than 16.
    BadLength { length: usize },
    /// A figure is above 10^16: the first such, at its place.
    LargeFigure { place: usize, figure: u64 },
}

impl RowFault {
    // A table, as every fault has: most have fields, and so no discriminant to read.
    /// The number of the refusal.
    pub fn number(self) -> u8
        ensures value { result ≡ row_number self }
    {
        match self {
            RowFault::BadLength { .. } => 13,
            RowFault::LargeFigure { .. } => 2,
        }
    }
}

// The words are written out, since a derived text has no contract.
impl fmt::Display for RowFault {
    ghost output = { λ f. Some (row_words f) };

    fn fmt<W: fmt::Write>(&self, f: &mut fmt::Formatter<W>) -> fmt::Result {
        match *self {
            RowFault::BadLength { length } => write!(f, "a row of {length} figures makes no book"),
            RowFault::LargeFigure { place, figure } => write!(
                f,
                "figure {figure} at place {place} is above 10^16"
            ),
        }
    }
}

impl Error for RowFault {}
