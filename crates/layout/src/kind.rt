//! The kinds of record.
ghost use Rattle.std.specs.Prelude.{◌≡◌, ◌++◌, Some, codes, decimal};
ghost use Rattle.layout.specs.Layout.{letter_of, body_of};
ghost use Rattle.layout.specs.Letters.{Named};

use std::error::Error;
use std::fmt;

/// The ten kinds of record.
#[derive(Clone, Copy, Debug, PartialEq, Eq)]
pub enum Kind {
    Opening,
    Fund,
    Draw,
    Submit,
    Activate,
    Withdraw,
    Reprioritise,
    Run,
    Show,
    Close,
}

/// A letter that no kind of record has.
#[derive(Clone, Copy, Debug, PartialEq, Eq)]
pub struct NoKind(pub u8);

// The words are written out, since a derived text has no contract.
impl fmt::Display for NoKind {
    ghost output = { λ e. Some (codes "no kind of record begins with byte " ++ decimal e.0) };

    fn fmt<W: fmt::Write>(&self, f: &mut fmt::Formatter<W>) -> fmt::Result {
        write!(f, "no kind of record begins with byte {}", self.0)
    }
}

impl Error for NoKind {}

/// The kind that a letter stands for.
impl TryFrom<u8> for Kind {
    type Error = NoKind;

    ghost try_from_gives = { Named };

    fn try_from(letter: u8) -> Result<Kind, NoKind> {
        match letter {
            b'O' => Ok(Kind::Opening),
            b'F' => Ok(Kind::Fund),
            b'D' => Ok(Kind::Draw),
            b'S' => Ok(Kind::Submit),
            b'A' => Ok(Kind::Activate),
            b'W' => Ok(Kind::Withdraw),
            b'L' => Ok(Kind::Reprioritise),
            b'R' => Ok(Kind::Run),
            b'B' => Ok(Kind::Show),
            b'C' => Ok(Kind::Close),
            _ => Err(NoKind(letter)),
        }
    }
}

impl Kind {
    // A table, as `body_len` is: neither a conversion nor a discriminant would say that the number is a letter.
    /// The letter that a record of this kind begins with.
    pub fn letter(self) -> u8
        ensures value { result ≡ letter_of self }
    {
        match self {
            Kind::Opening => b'O',
            Kind::Fund => b'F',
            Kind::Draw => b'D',
            Kind::Submit => b'S',
            Kind::Activate => b'A',
            Kind::Withdraw => b'W',
            Kind::Reprioritise => b'L',
            Kind::Run => b'R',
            Kind::Show => b'B',
            Kind::Close => b'C',
        }
    }

    /// How many bytes follow the letter.
    pub fn body_len(self) -> usize
        ensures value { result ≡ body_of self }
    {
        match self {
            Kind::Opening => 25,
            Kind::Fund | Kind::Draw => 9,
            Kind::Submit => 20,
            Kind::Activate | Kind::Withdraw => 5,
            Kind::Reprioritise => 6,
            Kind::Run | Kind::Show | Kind::Close => 0,
        }
    }
}
