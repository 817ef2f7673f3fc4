//! A whole day file: all its records at once, read and written.
#![tactic(auto)]

pub mod fault;
pub mod input;
pub mod laws;
pub mod placed;
pub mod read;
pub mod write;

pub use fault::FileFault;
pub use input::{Input, read_input};
pub use placed::{Front, Placed};
pub use read::{read_file, read_front};
pub use write::{append_record, write_file};
