//! Why a record is not read or not written.
ghost use Rattle.std.specs.Prelude.{◌≡◌, Some};
ghost use Rattle.layout.specs.Faults.{read_number, place_of, fault_words, write_number, write_words};

use std::error::Error;
use std::fmt;

/// Why no record could be read, with the place of its letter in the file, from 0.
#[derive(Clone, Copy, Debug, PartialEq, Eq)]
pub enum ReadFault {
    /// No kind has the letter.
    UnknownLetter { place: usize },
    /// The file ends inside the body.
    CutBody { place: usize },
}

/// Why a record was not written.
#[derive(Clone, Copy, Debug, PartialEq, Eq)]
pub enum WriteFault {
    /// Its reference is not of eight bytes.
    BadReference,
    /// The space is shorter than the record.
    ShortSpace,
}

impl ReadFault {
    // A table, as every fault has: most have fields, and so no discriminant to read.
    /// The number of the refusal.
    pub fn number(self) -> u8
        ensures value { result ≡ read_number self }
    {
        match self {
            ReadFault::UnknownLetter { .. } => 15,
            ReadFault::CutBody { .. } => 16,
        }
    }

    /// The place of the letter.
    pub fn place(self) -> usize
        ensures value { result ≡ place_of self }
    {
        match self {
            ReadFault::UnknownLetter { place } | ReadFault::CutBody { place } => place,
        }
    }
}

// The words are written out, since a derived text has no contract.
impl fmt::Display for ReadFault {
    ghost output = { λ f. Some (fault_words f) };

    fn fmt<W: fmt::Write>(&self, f: &mut fmt::Formatter<W>) -> fmt::Result {
        f.write_str(match self {
            ReadFault::UnknownLetter { .. } => "no kind of record has this letter",
            ReadFault::CutBody { .. } => "the file ends inside this record",
        })
    }
}

impl Error for ReadFault {}

impl WriteFault {
    // A table, as every fault has: most have fields, and so no discriminant to read.
    /// The number of the refusal.
    pub fn number(self) -> u8
        ensures value { result ≡ write_number self }
    {
        match self {
            WriteFault::BadReference => 16,
            WriteFault::ShortSpace => 13,
        }
    }
}

// The words are written out, since a derived text has no contract.
impl fmt::Display for WriteFault {
    ghost output = { λ f. Some (write_words f) };

    fn fmt<W: fmt::Write>(&self, f: &mut fmt::Formatter<W>) -> fmt::Result {
        f.write_str(match self {
            WriteFault::BadReference => "the reference is not of eight bytes",
            WriteFault::ShortSpace => "the space is too short for the record",
        })
    }
}

impl Error for WriteFault {}
