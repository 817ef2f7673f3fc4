//! The reader: from the bytes of a day file to its records.
ghost use Rattle.std.specs.Prelude.{◌≡◌, ◌+◌, ◌≤◌, length, take, drop};
ghost use Rattle.big_endian.specs.BigEndian.{number_of};
ghost use Rattle.layout.specs.Layout.{body_of};
ghost use Rattle.layout.specs.Records.{plain};
ghost use Rattle.records.specs.Reading.{Lent, Reads, Alone, Nexts};
ghost use Rattle.records.specs.Parsing.{parsed};

use big_endian::{Number, read};
use layout::{Kind, ReadFault, Record};

// The number that stands in a body from a place on.
fn field<T: Number<N>, const N: usize>(body: &[u8], at: usize) -> T
    requires { at + N ≤ length body.now }
    ensures value { T.value result ≡ number_of (take N (drop at body.now)) }
{
    read(body, at).unwrap()
}

// The record of a kind whose body some bytes begin with. Arms that are equal but for the kind stay two: each makes its own.
fn decode<'a>(kind: Kind, body: &'a [u8]) -> Record<'a>
    requires { body_of kind ≤ length body.now }
    ensures says { plain result ≡ parsed kind body.now }
    ensures lent { Lent body.entry 12 result }
{
    match kind {
        Kind::Opening => Record::Opening {
            account: body[0],
            figure: field(body, 1),
            limit: field(body, 9),
            room: field(body, 17),
        },
        Kind::Fund => Record::Fund {
            account: body[0],
            amount: field(body, 1),
        },
        Kind::Draw => Record::Draw {
            account: body[0],
            amount: field(body, 1),
        },
        Kind::Submit => Record::Submit {
            sender: body[0],
            receiver: body[1],
            amount: field(body, 2),
            priority: body[10],
            flag: body[11],
            reference: &body[12..20],
        },
        Kind::Activate => Record::Activate {
            sender: body[0],
            receipt: field(body, 1),
        },
        Kind::Withdraw => Record::Withdraw {
            sender: body[0],
            receipt: field(body, 1),
        },
        Kind::Reprioritise => Record::Reprioritise {
            sender: body[0],
            receipt: field(body, 1),
            priority: body[5],
        },
        Kind::Run => Record::Run,
        Kind::Show => Record::Show,
        Kind::Close => Record::Close,
    }
}

/// The record whose letter stands at a place, and the place after it; `None` at or past the file's end.
pub fn read_record<'a>(input: &'a [u8], at: usize) -> Result<Option<(Record<'a>, usize)>, ReadFault>
    ensures answer { Reads input.entry at result }
    ensures alone { Alone input.now at result }
{
    if at >= input.len() {
        return Ok(None);
    }
    let kind = Kind::try_from(input[at]).map_err(|_| ReadFault::UnknownLetter { place: at })?;
    let rest = &input[at + 1..];
    let size = kind.body_len();
    if rest.len() < size {
        return Err(ReadFault::CutBody { place: at });
    }
    Ok(Some((decode(kind, rest), at + 1 + size)))
}

// A slice and a place in it, since callers are told the place.
/// Reads a file record by record.
#[derive(Drop)]
pub struct Reader<'a> {
    input: &'a [u8],
    at: usize,
}

impl<'a> Reader<'a> {
    /// A reader that stands at the start of a file.
    pub fn new(input: &'a [u8]) -> Reader<'a>
        ensures input { result.input ≡ input.entry }
        ensures at { result.at ≡ 0 }
    {
        Reader { input, at: 0 }
    }

    /// The place of the next record's letter.
    pub fn place(&self) -> usize
        ensures value { result ≡ self.now.at }
    {
        self.at
    }

    /// The next record, or `None` at the file's end; a refusal leaves the reader where it stands.
    pub fn next_record(&mut self) -> Result<Option<Record<'a>>, ReadFault>
        ensures same { self.new.input ≡ self.old.input }
        ensures answer { Nexts self.old.input self.old.at self.new.at result }
    {
        let Reader { input, at } = self;
        let Some((record, next)) = read_record(input, *at)? else {
            return Ok(None);
        };
        *at = next;
        Ok(Some(record))
    }
}
