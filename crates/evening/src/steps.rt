//! The steps of the evening.
use books::{Book, BookFault};
use std::fmt;

// The evening is a constant table of steps, each printed before its answer, so a step is data and no closure.
/// A look at an account, a sum taken from it, or a sum put to it.
#[derive(Clone, Copy, Debug)]
pub enum Step {
    Look(usize),
    Take(usize, u64),
    Put(usize, u64),
}

/// The evening.
pub const STEPS: [Step; 17] = [
    Step::Look(0),
    Step::Look(1),
    Step::Look(2),
    Step::Take(0, 151),
    Step::Take(0, 150),
    Step::Put(0, 60),
    Step::Take(1, 41),
    Step::Take(1, 40),
    Step::Put(1, 10),
    Step::Put(2, 1),
    Step::Take(3, 5),
    Step::Take(1, 0),
    Step::Put(1, 10_000_000_000_000_001),
    Step::Take(0, 55),
    Step::Put(1, 55),
    Step::Take(2, 1_000_000_000_000_000),
    Step::Put(2, 1_000_000_000_000_000),
];

impl Step {
    /// The account that it is about.
    pub fn account(self) -> usize {
        match self {
            Step::Look(account) | Step::Take(account, _) | Step::Put(account, _) => account,
        }
    }
}

impl fmt::Display for Step {
    fn fmt<W: fmt::Write>(&self, f: &mut fmt::Formatter<W>) -> fmt::Result {
        match *self {
            Step::Look(account) => write!(f, "look {account}"),
            Step::Take(account, sum) => write!(f, "take {account} {sum}"),
            Step::Put(account, sum) => write!(f, "put {account} {sum}"),
        }
    }
}

/// Does the step, and tells what the book answered.
pub fn act<B: Book>(book: &mut B, step: Step) -> Result<(), BookFault> {
    match step {
        Step::Look(_) => Ok(()),
        Step::Take(account, sum) => book.take(account, sum),
        Step::Put(account, sum) => book.put(account, sum),
    }
}
