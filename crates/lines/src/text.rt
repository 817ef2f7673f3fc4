//! The lines of a listing as text.
ghost use Rattle.std.specs.Prelude.{Some};
ghost use Rattle.lines.specs.Lines.{fields_text, entry_text, refusal_text, verdict_text, ending_text};

use crate::hex::Hex;
use crate::line::{Ending, Entry, Refusal, Verdict};
use layout::Record;
use std::fmt;

// A record's letter, its kind in words, and its fields by name, which belong to the listing and not to the record. Arms that
// are equal but for the words stay two.
#[derive(Clone, Copy)]
struct Fields<'a>(Record<'a>);

impl fmt::Display for Fields<'_> {
    ghost output = { λ w. Some (fields_text w.0) };

    fn fmt<W: fmt::Write>(&self, f: &mut fmt::Formatter<W>) -> fmt::Result {
        match &self.0 {
            Record::Opening {
                account,
                figure,
                limit,
                room,
            } => write!(
                f,
                "O opening account={account} figure={figure} limit={limit} room={room}"
            ),
            Record::Fund { account, amount } => write!(
                f,
                "F fund account={account} amount={amount}"
            ),
            Record::Draw { account, amount } => write!(
                f,
                "D draw account={account} amount={amount}"
            ),
            Record::Submit {
                sender,
                receiver,
                amount,
                priority,
                flag,
                reference,
            } => {
                let hex = Hex(reference);
                write!(
                    f,
                    "S submit sender={sender} receiver={receiver} amount={amount} priority={priority} flag={flag} reference={hex}"
                )
            }
            Record::Activate { sender, receipt } => write!(
                f,
                "A activate sender={sender} receipt={receipt}"
            ),
            Record::Withdraw { sender, receipt } => write!(
                f,
                "W withdraw sender={sender} receipt={receipt}"
            ),
            Record::Reprioritise {
                sender,
                receipt,
                priority,
            } => write!(
                f,
                "L reprioritise sender={sender} receipt={receipt} priority={priority}"
            ),
            Record::Run => f.write_str("R run"),
            Record::Show => f.write_str("B show"),
            Record::Close => f.write_str("C close"),
        }
    }
}

impl fmt::Display for Entry<'_> {
    ghost output = { λ e. Some (entry_text e.number e.place e.«record») };

    fn fmt<W: fmt::Write>(&self, f: &mut fmt::Formatter<W>) -> fmt::Result {
        let Entry {
            number,
            place,
            record,
        } = *self;
        let fields = Fields(record);
        write!(f, "{number} at {place}: {fields}")
    }
}

impl fmt::Display for Refusal {
    ghost output = { λ r. Some (refusal_text r.number r.fault) };

    fn fmt<W: fmt::Write>(&self, f: &mut fmt::Formatter<W>) -> fmt::Result {
        let Refusal { number, fault } = *self;
        let place = fault.place();
        let refusal = fault.number();
        write!(f, "{number} at {place}: refused {refusal}, {fault}")
    }
}

impl fmt::Display for Verdict {
    ghost output = { λ v. Some (verdict_text v) };

    fn fmt<W: fmt::Write>(&self, f: &mut fmt::Formatter<W>) -> fmt::Result {
        match self {
            Verdict::Same => f.write_str("the same file"),
            Verdict::Front { of } => write!(f, "not the same file, which has {of} bytes"),
            Verdict::Longer => f.write_str(
                "not the same file, which is longer than 65536 bytes and was read no further",
            ),
        }
    }
}

impl fmt::Display for Ending {
    ghost output = { λ e. Some (ending_text e) };

    fn fmt<W: fmt::Write>(&self, f: &mut fmt::Formatter<W>) -> fmt::Result {
        let Ending {
            records,
            bytes,
            verdict,
        } = *self;
        write!(f, "wrote back records={records} bytes={bytes}: {verdict}")
    }
}
