//! Why a whole file is not read or not written.
ghost use Rattle.std.specs.Prelude.{◌≡◌, Some};
ghost use Rattle.files.specs.Faults.{file_number, file_words};
ghost use Rattle.files.specs.declared.fault.FileFault.TheVariants.{Write, Memory};

use layout::{ReadFault, WriteFault};
use std::alloc::AllocError;
use std::error::Error;
use std::fmt;

/// Why a whole file was not read or written.
#[derive(Clone, Copy, Debug, PartialEq, Eq)]
pub enum FileFault {
    Read(ReadFault),
    Write(WriteFault),
    /// There is no memory; this is no refusal of the file, and has no number.
    Memory,
}

impl FileFault {
    // A table, as every fault has: most have fields, and so no discriminant to read.
    /// The number of the refusal, where it is one.
    pub fn number(self) -> Option<u8>
        ensures value { result ≡ file_number self }
    {
        match self {
            FileFault::Read(fault) => Some(fault.number()),
            FileFault::Write(fault) => Some(fault.number()),
            FileFault::Memory => None,
        }
    }
}

// The words are written out, since a derived text has no contract.
impl fmt::Display for FileFault {
    ghost output = { λ f. Some (file_words f) };

    fn fmt<W: fmt::Write>(&self, f: &mut fmt::Formatter<W>) -> fmt::Result {
        match self {
            FileFault::Read(fault) => write!(f, "{fault}"),
            FileFault::Write(fault) => write!(f, "{fault}"),
            FileFault::Memory => f.write_str("there is no memory"),
        }
    }
}

impl Error for FileFault {}

// Both conversions are written out: a derived one has no contract, and a clause says which fault a `?` makes.
impl From<WriteFault> for FileFault {
    ghost from_gives = { λ fault r. r ≡ Write fault };

    fn from(fault: WriteFault) -> FileFault {
        Self::Write(fault)
    }
}

impl From<AllocError> for FileFault {
    ghost from_gives = { λ _ r. r ≡ Memory };

    fn from(_fault: AllocError) -> FileFault {
        Self::Memory
    }
}
