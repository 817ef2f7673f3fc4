//! The records of a file, each with its place.
use layout::{ReadFault, Record};

/// A record of a file, with the place of its letter.
#[derive(Clone, Copy, Debug)]
pub struct Placed<'a> {
    pub place: usize,
    pub record: Record<'a>,
}

/// The records of a file from its start, up to its end or to the refusal that stopped the reader.
#[derive(Drop)]
pub struct Front<'a> {
    pub records: Vec<Placed<'a>>,
    pub stop: Option<ReadFault>,
}
