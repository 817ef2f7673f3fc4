//! What every row of figures offers.
ghost use Rattle.std.specs.Prelude.{◌≡◌, ℕ, ◌≤◌, List, length, slice_get, Some, codes};
ghost use Rattle.rows.specs.Rows.{Low, WriteAnswers};

use std::error::Error;
use std::fmt;

/// The row has no such place, or the figure is above 10^16.
#[derive(Clone, Copy, Debug, PartialEq, Eq)]
pub struct NotWritten;

// The words are written out, since a derived text has no contract.
impl fmt::Display for NotWritten {
    ghost output = { λ _. Some (codes "the row has no such place, or the figure is above 10^16") };

    fn fmt<W: fmt::Write>(&self, f: &mut fmt::Formatter<W>) -> fmt::Result {
        f.write_str("the row has no such place, or the figure is above 10^16")
    }
}

impl Error for NotWritten {}

/// A row of 0 to 16 figures, each at most 10^16, in whatever form it is kept.
pub trait Row {
    /// The figures, by their places.
    ghost figures: { Self → List ℕ };

    /// What a write of a figure at a place leaves of the form in which the row is kept.
    ghost wrote: { Self → ℕ → ℕ → Self → Type 0 };

    /// The number of figures.
    fn count(&self) -> usize
        ensures value { result ≡ length (figures self.now) };

    /// The figure at a place, or `None` where there is no such place.
    fn figure(&self, place: usize) -> Option<u64>
        ensures value { result ≡ slice_get (figures self.now) place };

    /// Writes a figure at a place; every other figure is as it was. It refuses where there is no such place, or the
    /// figure is above 10^16; the row is then the same value as before.
    fn write(&mut self, place: usize, figure: u64) -> Result<(), NotWritten>
        ensures answer { WriteAnswers figures wrote self.old place figure result self.new };

    ghost few: { (r : Self) → length (figures r) ≤ 16 };

    ghost low: { (r : Self) → Low (figures r) };
}
