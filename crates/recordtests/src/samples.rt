//! A record of each kind, with its bytes as the format has them.
use records::{Kind, Record};

pub const KINDS: [Kind; 10] = [
    Kind::Opening,
    Kind::Fund,
    Kind::Draw,
    Kind::Submit,
    Kind::Activate,
    Kind::Withdraw,
    Kind::Reprioritise,
    Kind::Run,
    Kind::Show,
    Kind::Close,
];

/// The record of a kind whose bytes `bytes_of` has, with a reference of one's own.
pub fn sample(kind: Kind, reference: &[u8]) -> Record<'_> {
    match kind {
        Kind::Opening => Record::Opening {
            account: 3,
            figure: 0x0102_0304_0506_0708,
            limit: 0x1112_1314_1516_1718,
            room: 0xf1f2_f3f4_f5f6_f7f8,
        },
        Kind::Fund => Record::Fund {
            account: 15,
            amount: 100_000_000_000_000,
        },
        Kind::Draw => Record::Draw {
            account: 255,
            amount: 1,
        },
        Kind::Submit => Record::Submit {
            sender: 1,
            receiver: 2,
            amount: 300,
            priority: 50,
            flag: 1,
            reference,
        },
        Kind::Activate => Record::Activate {
            sender: 4,
            receipt: 60_000,
        },
        Kind::Withdraw => Record::Withdraw {
            sender: 5,
            receipt: 0x0102_0304,
        },
        Kind::Reprioritise => Record::Reprioritise {
            sender: 6,
            receipt: 7,
            priority: 99,
        },
        Kind::Run => Record::Run,
        Kind::Show => Record::Show,
        Kind::Close => Record::Close,
    }
}

/// The reference in `bytes_of`.
pub const REFERENCE: &[u8] = b"INV-0001";

pub fn bytes_of(kind: Kind) -> &'static [u8] {
    match kind {
        Kind::Opening => {
            b"O\x03\x01\x02\x03\x04\x05\x06\x07\x08\x11\x12\x13\x14\x15\x16\x17\x18\xf1\xf2\xf3\xf4\xf5\xf6\xf7\xf8"
        }
        Kind::Fund => b"F\x0f\x00\x00\x5a\xf3\x10\x7a\x40\x00",
        Kind::Draw => b"D\xff\x00\x00\x00\x00\x00\x00\x00\x01",
        Kind::Submit => b"S\x01\x02\x00\x00\x00\x00\x00\x00\x01\x2c\x32\x01INV-0001",
        Kind::Activate => b"A\x04\x00\x00\xea\x60",
        Kind::Withdraw => b"W\x05\x01\x02\x03\x04",
        Kind::Reprioritise => b"L\x06\x00\x00\x00\x07\x63",
        Kind::Run => b"R",
        Kind::Show => b"B",
        Kind::Close => b"C",
    }
}
