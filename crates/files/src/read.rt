//! A whole file read.
ghost use Rattle.std.specs.Prelude.{IfOk};
ghost use Rattle.files.specs.Files.{Fronts, Filed};

use crate::fault::FileFault;
use crate::placed::{Front, Placed};
use records::Reader;
use std::alloc::{AllocError, Global};

/// Reads a file to its end or to a refusal, and keeps what was read before it.
pub fn read_front<'a>(heap: Global, input: &'a [u8]) -> Result<Front<'a>, AllocError>
    ensures answer { IfOk result (λ front. Fronts input.entry front.records.items front.stop) }
{
    let mut records = Vec::new(heap);
    let mut reader = Reader::new(input);
    let stop = loop {
        let place = reader.place();
        match reader.next_record() {
            Ok(Some(record)) => records.push(Placed { place, record })?,
            Ok(None) => break None,
            Err(fault) => break Some(fault),
        }
    };
    Ok(Front { records, stop })
}

/// All the records of a file, or the refusal that stopped the reader.
pub fn read_file<'a>(heap: Global, input: &'a [u8]) -> Result<Vec<Placed<'a>>, FileFault>
    ensures answer { Filed input.entry result }
{
    let Front { records, stop } = read_front(heap, input)?;
    match stop {
        None => Ok(records),
        Some(fault) => Err(FileFault::Read(fault)),
    }
}
