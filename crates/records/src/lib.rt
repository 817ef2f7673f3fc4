//! A record of a day file, read and written: one letter of kind, then a body of fixed length, numbers big-endian.
#![tactic(auto)]

pub mod laws;
pub mod read;
pub mod write;

pub use layout::{Kind, NoKind, ReadFault, Record, WriteFault};
pub use read::{Reader, read_record};
pub use write::write_record;
