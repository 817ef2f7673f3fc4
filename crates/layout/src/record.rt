//! A record of a day file.
ghost use Rattle.std.specs.Prelude.{◌≡◌, ◌+◌};
ghost use Rattle.layout.specs.Records.{plain, reference_of, size_of};

use crate::kind::Kind;

/// A record. A submit's reference is borrowed: the reader lends it from the file that it reads.
#[derive(Clone, Copy, Debug, PartialEq, Eq)]
pub enum Record<'a> {
    Opening {
        account: u8,
        figure: u64,
        limit: u64,
        room: u64,
    },
    Fund {
        account: u8,
        amount: u64,
    },
    Draw {
        account: u8,
        amount: u64,
    },
    Submit {
        sender: u8,
        receiver: u8,
        amount: u64,
        priority: u8,
        flag: u8,
        reference: &'a [u8],
    },
    Activate {
        sender: u8,
        receipt: u32,
    },
    Withdraw {
        sender: u8,
        receipt: u32,
    },
    Reprioritise {
        sender: u8,
        receipt: u32,
        priority: u8,
    },
    Run,
    Show,
    Close,
}

impl<'a> Record<'a> {
    pub fn kind(&self) -> Kind
        ensures value { result ≡ (plain self.now).kind }
    {
        match self {
            Record::Opening { .. } => Kind::Opening,
            Record::Fund { .. } => Kind::Fund,
            Record::Draw { .. } => Kind::Draw,
            Record::Submit { .. } => Kind::Submit,
            Record::Activate { .. } => Kind::Activate,
            Record::Withdraw { .. } => Kind::Withdraw,
            Record::Reprioritise { .. } => Kind::Reprioritise,
            Record::Run => Kind::Run,
            Record::Show => Kind::Show,
            Record::Close => Kind::Close,
        }
    }

    /// How many bytes it has in a file, with its letter.
    pub fn size(&self) -> usize
        ensures value { result ≡ size_of (plain self.now) }
    {
        1 + self.kind().body_len()
    }

    /// The reference of a submit.
    pub fn reference(&self) -> Option<&'a [u8]>
        ensures value { result ≡ reference_of self.now }
    {
        match self {
            Record::Submit { reference, .. } => Some(*reference),
            _ => None,
        }
    }
}
