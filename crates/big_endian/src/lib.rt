//! Numbers of one, four and eight bytes, the greatest byte first: read out of a slice and written into one.
#![tactic(auto)]

ghost use Rattle.std.specs.Prelude.{◌≡◌, ℕ, ◌+◌, ◌<◌, ◌≤◌, length, take, drop, MatchOption, Some, codes};
ghost use Rattle.std.specs.Int.Digits.{AllBelowBase};
ghost use Rattle.std.proofs.Common.{arith};
ghost use Rattle.big_endian.specs.BigEndian.{bytes_of, number_of, ReadsAs, Writes, ReadsBack, WritesBack};

use std::error::Error;
use std::fmt;

/// A number that has `N` bytes.
pub trait Number<const N: usize>: Sized {
    /// The number that it is.
    ghost value: { Self → ℕ };

    /// The number that the bytes write, the greatest first.
    fn from_bytes(bytes: &[u8; N]) -> Self
        ensures value { value result ≡ number_of bytes.now };

    /// Its bytes, the greatest first.
    fn to_bytes(self) -> [u8; N]
        ensures bytes { result ≡ bytes_of N (value self) };

    /// No number has more than eight bytes, so that its bytes fit in memory.
    ghost short: { N ≤ 8 };
}

impl Number<8> for u64 {
    ghost value = { λ n. n };

    ghost short = { omega arith };

    fn from_bytes(bytes: &[u8; 8]) -> u64 {
        u64::from_be_bytes(*bytes)
    }

    fn to_bytes(self) -> [u8; 8] {
        u64::to_be_bytes(self)
    }
}

impl Number<4> for u32 {
    ghost value = { λ n. n };

    ghost short = { omega arith };

    fn from_bytes(bytes: &[u8; 4]) -> u32 {
        u32::from_be_bytes(*bytes)
    }

    fn to_bytes(self) -> [u8; 4] {
        u32::to_be_bytes(self)
    }
}

impl Number<1> for u8 {
    ghost value = { λ n. n };

    ghost short = { omega arith };

    fn from_bytes(bytes: &[u8; 1]) -> u8 {
        bytes[0]
    }

    fn to_bytes(self) -> [u8; 1] {
        [self]
    }
}

/// There is no place for all the bytes that were to be written.
#[derive(Clone, Copy, Debug, PartialEq, Eq)]
pub struct NoRoom;

// The words are written out, since a derived text has no contract.
impl fmt::Display for NoRoom {
    ghost output = { λ _. Some (codes "there is no room for these bytes") };

    fn fmt<W: fmt::Write>(&self, f: &mut fmt::Formatter<W>) -> fmt::Result {
        f.write_str("there is no room for these bytes")
    }
}

impl Error for NoRoom {}

// Here and below, slice and place are two parameters: `&input[at..]` would ask a caller to show that the place is within it.
/// The `N` bytes of `input` from `at` on, or `None` where there are fewer.
pub fn bytes_at<const N: usize>(input: &[u8], at: usize) -> Option<&[u8; N]>
    ensures answer { MatchOption result (length input.now < at + N) (λ part. (at + N ≤ length input.now) × (part.now ≡ take N (drop at input.now))) }
{
    input.get(at..)?.first_chunk()
}

/// The number of the bytes of `input` from `at` on, or `None` where there are fewer than it has.
pub fn read<T: Number<N>, const N: usize>(input: &[u8], at: usize) -> Option<T>
    ensures answer { ReadsAs T.value N input.now at result }
{
    Some(T::from_bytes(bytes_at(input, at)?))
}

/// Writes `bytes` into `space` from `at` on. Where they do not fit it writes nothing.
pub fn write_bytes(space: &mut [u8], at: usize, bytes: &[u8]) -> Result<(), NoRoom>
    ensures bytes { AllBelowBase 256 bytes.now }
    ensures answer { Writes bytes.now at space.old space.new result }
{
    if at > space.len() || bytes.len() > space.len() - at {
        return Err(NoRoom);
    }
    let end = at + bytes.len();
    space[at..end].copy_from_slice(bytes);
    Ok(())
}

/// Writes the bytes of `number` into `space` from `at` on. Where they do not fit it writes nothing.
pub fn write<T: Number<N>, const N: usize>(
    space: &mut [u8],
    at: usize,
    number: T,
) -> Result<(), NoRoom>
    ensures answer { Writes (bytes_of N (T.value number)) at space.old space.new result }
{
    write_bytes(space, at, &number.to_bytes())
}

/// A promise over every width, which a caller may cite: numbers and bytes give each other back.
pub fn bytes_and_numbers_match()
    ensures reads_back { ReadsBack }
    ensures writes_back { WritesBack }
{}
