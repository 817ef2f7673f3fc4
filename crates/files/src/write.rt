//! A whole file written.
ghost use Rattle.files.specs.Files.{Appended, Joined};

use crate::fault::FileFault;
use crate::placed::Placed;
use layout::Record;
use records::write_record;
use std::alloc::Global;

// The bytes of the longest kind of record, an opening. A record is written into a space of its own, since one that is refused
// must leave the file as it was.
const LONGEST: usize = 26;

/// Adds a record's bytes to the end of a file.
pub fn append_record(file: &mut Vec<u8>, what: &Record<'_>) -> Result<(), FileFault>
    ensures answer { Appended what.now file.old.items file.new.items result }
{
    let mut space = [0u8; LONGEST];
    let size = write_record(what, &mut space)?;
    file.extend_from_slice(&space[0..size])?;
    Ok(())
}

/// Writes records to a new file, one after another.
pub fn write_file(heap: Global, records: &[Placed<'_>]) -> Result<Vec<u8>, FileFault>
    ensures answer { Joined records.now result }
{
    let mut file = Vec::new(heap);
    for placed in records {
        append_record(&mut file, &placed.record)?;
    }
    Ok(file)
}
