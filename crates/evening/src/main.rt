//! One settlement evening by hand, over a table book, a credit book and a room book.
#![tactic(auto)]

mod answers;
mod steps;

use crate::answers::Answer;
use crate::steps::{STEPS, act};
use books::{Book, Table, TableBook};
use layers::{CreditBook, RoomBook};

// Account 0 may borrow 50, account 1 may send 40 at first, and account 2 is full. Each refusal is met.
fn main(rt: HostRuntime) -> anyhow::Result<()> {
    let row = [100, 100, 10_000_000_000_000_000].to_vec(rt.alloc())?;
    let lending = CreditBook::new(TableBook::over(Table::new(row)), &[50]);
    let mut book = RoomBook::new(lending, &[1_000, 40, 1_000_000_000_000_001]);
    for step in STEPS {
        let answer = Answer(act(&mut book, step).map(|()| "ok"));
        let account = step.account();
        let sendable = Answer(book.ask_sendable(account));
        let open = Answer(book.ask_open(account));
        let loan = Answer(book.below().ask_loan(account));
        println!(rt; "{step} {answer}: sendable {sendable} open {open} loan {loan}")?;
    }
    Ok(())
}
