//! The row of figures in a list.
ghost use Rattle.std.specs.Prelude.{◌≡◌, ◌≤◌, slice_set, vec_len};
ghost use Rattle.rows.specs.Rows.{Low};
ghost use Rattle.tables.specs.Rows.{RowChecked, Keeps};
ghost use Rattle.std.proofs.Common.{arith};

use crate::fault::RowFault;
use book::{LARGEST_FIGURE, MOST_ACCOUNTS};
use rows::{NotWritten, Row};

/// A row of at most 16 figures, each at most 10^16.
#[derive(Drop)]
pub struct Table {
    row: Vec<u64>,
    ghost few: { vec_len row ≤ 16 },
    ghost low: { Low row.items },
}

/// Whether a row makes a book. It refuses 13 for a row of no figures or of more than 16, then 2 for the first figure
/// above 10^16.
pub fn check_row(row: &[u64]) -> Result<(), RowFault>
    ensures answer { RowChecked row.now result }
{
    let length = row.len();
    if length == 0 || length > MOST_ACCOUNTS {
        return Err(RowFault::BadLength { length });
    }
    for (place, &figure) in row.iter().enumerate() {
        if figure > LARGEST_FIGURE {
            return Err(RowFault::LargeFigure { place, figure });
        }
    }
    Ok(())
}

impl Table {
    /// The table of this row. A row that `check_row` refuses makes a table of no figures.
    pub fn new(mut row: Vec<u64>) -> Table
        ensures row { Keeps row.items result.row.items }
        ensures low { Low result.row.items }
    {
        if check_row(&row).is_err() {
            row.clear();
        }
        Table { row }
    }

    /// The figures as they stand, one for each account.
    pub fn figures(&self) -> &[u64]
        ensures value { result.now ≡ self.now.row.items }
    {
        &self.row
    }
}

impl Row for Table {
    ghost figures = { λ t. t.row.items };

    ghost wrote = { λ t k n s. s.row.items ≡ slice_set t.row.items k n };

    ghost few = { λ t. omega (arith, t.few, t.row.ok.0) };

    ghost low = { λ t. t.low };

    fn count(&self) -> usize {
        self.figures().len()
    }

    fn figure(&self, place: usize) -> Option<u64> {
        self.row.get(place).copied()
    }

    fn write(&mut self, place: usize, figure: u64) -> Result<(), NotWritten> {
        if place >= self.row.len() || figure > LARGEST_FIGURE {
            return Err(NotWritten);
        }
        self.row[place] = figure;
        Ok(())
    }
}
