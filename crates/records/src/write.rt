//! The writer: from a record to its bytes.
ghost use Rattle.std.specs.Prelude.{◌≡◌, ◌+◌, ◌≤◌, ◌++◌, length, drop, MatchBool};
ghost use Rattle.big_endian.specs.BigEndian.{bytes_of, over};
ghost use Rattle.layout.specs.Records.{plain, Sized, encode, size_of};
ghost use Rattle.records.specs.Writing.{Wrote};

use big_endian::{Number, write, write_bytes};
use layout::{Record, WriteFault};

const REFERENCE_LEN: usize = 8;

// Whether the reference, where there is one, has its eight bytes.
fn is_sized(what: &Record<'_>) -> bool
    ensures answer { MatchBool result (Sized what.now) (Sized what.now → ⊥) }
{
    what.reference()
        .is_none_or(|reference| reference.len() == REFERENCE_LEN)
}

// Puts a number at a place of a space that has room for it.
fn put<T: Number<N>, const N: usize>(space: &mut [u8], at: usize, number: T)
    requires { at + N ≤ length space.old }
    ensures after { space.new ≡ over (bytes_of N (T.value number)) at space.old }
    ensures len { length space.new ≡ length space.old }
{
    write(space, at, number).unwrap();
}

// Puts a record's bytes at the start of a space that has room for them.
fn fill(what: &Record<'_>, space: &mut [u8])
    requires sized { Sized what.now }
    requires room { size_of (plain what.now) ≤ length space.old }
    ensures after { space.new ≡ encode (plain what.now) ++ drop (size_of (plain what.now)) space.old }
{
    put(space, 0, what.kind().letter());
    match *what {
        Record::Opening {
            account,
            figure,
            limit,
            room,
        } => {
            put(space, 1, account);
            put(space, 2, figure);
            put(space, 10, limit);
            put(space, 18, room);
        }
        Record::Fund { account, amount } | Record::Draw { account, amount } => {
            put(space, 1, account);
            put(space, 2, amount);
        }
        Record::Submit {
            sender,
            receiver,
            amount,
            priority,
            flag,
            reference,
        } => {
            put(space, 1, sender);
            put(space, 2, receiver);
            put(space, 3, amount);
            put(space, 11, priority);
            put(space, 12, flag);
            write_bytes(space, 13, reference).unwrap();
        }
        Record::Activate { sender, receipt } | Record::Withdraw { sender, receipt } => {
            put(space, 1, sender);
            put(space, 2, receipt);
        }
        Record::Reprioritise {
            sender,
            receipt,
            priority,
        } => {
            put(space, 1, sender);
            put(space, 2, receipt);
            put(space, 6, priority);
        }
        Record::Run | Record::Show | Record::Close => {}
    }
}

// The space is lent, and no memory is asked for, so the answer says how much of it is filled.
/// Puts a record's bytes at the start of a space, leaves the rest, and answers how many they are.
pub fn write_record(what: &Record<'_>, space: &mut [u8]) -> Result<usize, WriteFault>
    ensures answer { Wrote what.now space.old space.new result }
{
    if !is_sized(what) {
        return Err(WriteFault::BadReference);
    }
    let size = what.size();
    if space.len() < size {
        return Err(WriteFault::ShortSpace);
    }
    fill(what, space);
    Ok(size)
}
