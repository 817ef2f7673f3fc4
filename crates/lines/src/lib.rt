//! The lines of a listing: what they say, and their text.
#![tactic(auto)]

pub mod hex;
pub mod line;
pub mod text;

pub use hex::Hex;
pub use line::{Ending, Entry, Refusal, Verdict};
