//! The listing of a whole day file: a line for each record, the refusal, and what was written back.
#![tactic(auto)]

ghost use Rattle.std.specs.Prelude.{◌≡◌, true, false, [], ◌∷◌, ◌++◌, length, IfSome, IfOk, Some, string_bytes, OnOk};
ghost use Rattle.std.specs.List.{flat_map, AllByRecursion};
ghost use Rattle.std.specs.Fmt.{option_append};
ghost use Rattle.files.specs.Files.{said};
ghost use Rattle.layout.specs.Records.{Sized, encode};
ghost use Rattle.listing.specs.Listing.{entries_text, stop_text, Judged, Lists};

use files::{FileFault, Front, Placed, read_front, write_file};
use layout::ReadFault;
use lines::{Ending, Entry, Refusal, Verdict};
use std::alloc::{AllocError, Global};
use std::fmt;

/// The text of a file's listing, what was written back, and how that compares with the file.
#[derive(Drop)]
pub struct Listing {
    pub text: String,
    pub copy: Vec<u8>,
    pub verdict: Verdict,
}

// Adds a line to a text.
fn add_line<D: fmt::Display + Drop>(text: &mut String, line: D) -> Result<(), AllocError>
    ensures text { OnOk result (IfSome (option_append (D.Display.output line) (Some (10 ∷ []))) (λ bs. string_bytes text.new ≡ string_bytes text.old ++ bs)) }
{
    writeln!(text, "{line}")
}

// A line for each record, numbered from 1.
fn entries_text(heap: Global, records: &[Placed<'_>]) -> Result<String, AllocError>
    ensures text { IfOk result (λ text. string_bytes text ≡ entries_text 1 records.now) }
{
    let mut text = String::new(heap);
    for (i, &Placed { place, record }) in records.iter().enumerate() {
        let entry = Entry {
            number: i + 1,
            place,
            record,
        };
        add_line(&mut text, entry)?;
    }
    Ok(text)
}

// Adds a line for a refusal, if there is one.
fn add_stop(text: &mut String, number: usize, stop: Option<ReadFault>) -> Result<(), AllocError>
    ensures text { OnOk result (string_bytes text.new ≡ string_bytes text.old ++ stop_text number stop) }
{
    match stop {
        Some(fault) => add_line(text, Refusal { number, fault }),
        None => Ok(()),
    }
}

// How a copy compares with the file that it was made from, of which there may be more than was read. File and word are two
// parameters, here and in `list`: an `Input` owns its bytes, and a caller may have lent ones.
fn compare(file: &[u8], copy: &[u8], is_cut: bool) -> Verdict
    ensures answer { Judged file.now copy.now is_cut result }
{
    if is_cut {
        Verdict::Longer
    } else if copy == file {
        Verdict::Same
    } else {
        Verdict::Front { of: file.len() }
    }
}

// The bytes of records that were read from a file, written out again, so that only memory can be wanting.
fn written_back(heap: Global, records: &[Placed<'_>]) -> Result<Vec<u8>, AllocError>
    requires { AllByRecursion (λ w. Sized w.«record») records.now }
    ensures copy { IfOk result (λ v. v.items ≡ flat_map encode (said records.now)) }
{
    write_file(heap, records).map_err(|fault| match fault {
        FileFault::Memory => AllocError,
        FileFault::Read(_) | FileFault::Write(_) => unreachable(),
    })
}

/// Lists a file, writes what was read out again, and says whether that is the file; `is_cut` says that the file has more
/// bytes than were read.
pub fn list(heap: Global, file: &[u8], is_cut: bool) -> Result<Listing, AllocError>
    ensures answer { IfOk result (λ listing. Lists file.entry is_cut listing) }
{
    let Front { records, stop } = read_front(heap, file)?;
    let copy = written_back(heap, records.as_slice())?;
    let verdict = compare(file, copy.as_slice(), is_cut);
    let mut text = entries_text(heap, records.as_slice())?;
    let count = records.len();
    let bytes = copy.len();
    add_stop(&mut text, count + 1, stop)?;
    let ending = Ending {
        records: count,
        bytes,
        verdict,
    };
    add_line(&mut text, ending)?;
    Ok(Listing {
        text,
        copy,
        verdict,
    })
}
