//! What the lines of a listing say.
use layout::{ReadFault, Record};

/// A record, with its number in the file, from 1, and its place.
#[derive(Clone, Copy)]
pub struct Entry<'a> {
    pub number: usize,
    pub place: usize,
    pub record: Record<'a>,
}

/// A refusal, with the number of the record that could not be read.
#[derive(Clone, Copy)]
pub struct Refusal {
    pub number: usize,
    pub fault: ReadFault,
}

/// How what was written back compares with the file.
#[derive(Clone, Copy, Debug, PartialEq, Eq)]
pub enum Verdict {
    /// It is the file.
    Same,
    /// It is the front of a file of so many bytes, up to a refusal.
    Front { of: usize },
    /// The file is longer than what was read of it.
    Longer,
}

/// The last line: how many records and bytes were written back.
#[derive(Clone, Copy)]
pub struct Ending {
    pub records: usize,
    pub bytes: usize,
    pub verdict: Verdict,
}
