//! What a credit book answers and does.
ghost use Rattle.std.specs.Prelude.{◌≡◌, ℕ, ◌^◌, ◌≤◌, length};
ghost use Rattle.book.specs.Moves.{Answers, Taken, Put, MoveKeeps};
ghost use Rattle.book.specs.Layers.{Capped, Leaves};
ghost use Rattle.credit.specs.Credits.{credit_means, loan_of, lend, repay};
ghost use Rattle.credit.specs.Books.{credit_of, Stands};
ghost use Rattle.book.proofs.Layers.{length-layered};

use crate::CreditBook;
use crate::line::Line;
use book::{Book, BookFault, LARGEST_ANSWER, Reason, capped, check_account, check_move};

impl<B: Book> CreditBook<B> {
    /// The book over `below` with these limits and no loan. A limit above 10^15 counts as 10^15, and an account for
    /// which the row is too short has the limit 0.
    pub fn new(below: B, limits: &[u64]) -> CreditBook<B>
        ensures below { result.below ≡ below }
        ensures limits { Capped limits.now (credit_of B.Book result).limits }
        ensures loans { (k : ℕ) → loan_of (credit_of B.Book result) k ≡ 0 }
        ensures standing { B.Book.standing below → Stands B.Book result }
    {
        CreditBook {
            below,
            lines: capped(limits).map(Line::new),
        }
    }

    /// The loan of the account. It refuses 1.
    pub fn ask_loan(&self, account: usize) -> Result<u64, BookFault>
        ensures answer { Answers (length (B.Book.means self.now.below)) account (loan_of (credit_of B.Book self.now) account) result }
    {
        check_account(self.below.count(), account)?;
        Ok(self.lines[account].loan)
    }

    // A room book lends its book below by the same line: a trait for it would be longer than both.
    /// The book below.
    pub fn below(&self) -> &B
        ensures value { result.now ≡ self.now.below }
    {
        &self.below
    }
}

impl<B: Book> Book for CreditBook<B> {
    ghost means = { λ b. credit_means (credit_of B.Book b) };

    ghost standing = { λ b. Stands B.Book b };

    ghost few = { λ b. rw length-layered (B.few b.below) };

    fn count(&self) -> usize {
        self.below().count()
    }

    // Each direction has its own call, here as in take and put: one for both would hide which way money goes.
    fn ask_sendable(&self, account: usize) -> Result<u64, BookFault> {
        let own = self.below.ask_sendable(account)?;
        Ok((own + self.lines[account].left()).min(LARGEST_ANSWER))
    }

    fn ask_open(&self, account: usize) -> Result<u64, BookFault> {
        let own = self.below.ask_open(account)?;
        Ok((own + self.lines[account].loan).min(LARGEST_ANSWER))
    }

    fn take(&mut self, account: usize, sum: u64) -> Result<(), BookFault>
        ensures answer { Taken (credit_means (credit_of B.Book self.old)) account sum result (credit_means (credit_of B.Book self.new)) }
        ensures keeps { MoveKeeps (λ b. credit_means (credit_of B.Book b)) (λ b. Stands B.Book b) self.old result self.new }
        ensures split { Leaves (credit_of B.Book self.old) (lend (credit_of B.Book self.old) account sum) result (credit_of B.Book self.new) }
    {
        check_move(self.below.count(), account, sum)?;
        let own = self.below.ask_sendable(account)?;
        let left = self.lines[account].left();
        if sum > own + left {
            return Err(Reason::AboveSendable.at(account, sum));
        }
        let part = sum.min(own);
        // The book below refuses a sum of 0.
        if part > 0 {
            self.below.take(account, part)?;
        }
        self.lines[account].loan += sum - part;
        Ok(())
    }

    fn put(&mut self, account: usize, sum: u64) -> Result<(), BookFault>
        ensures answer { Put (credit_means (credit_of B.Book self.old)) account sum result (credit_means (credit_of B.Book self.new)) }
        ensures keeps { MoveKeeps (λ b. credit_means (credit_of B.Book b)) (λ b. Stands B.Book b) self.old result self.new }
        ensures split { Leaves (credit_of B.Book self.old) (repay (credit_of B.Book self.old) account sum) result (credit_of B.Book self.new) }
    {
        check_move(self.below.count(), account, sum)?;
        let own = self.below.ask_open(account)?;
        let loan = self.lines[account].loan;
        if sum > own + loan {
            return Err(Reason::AboveOpen.at(account, sum));
        }
        let part = sum.min(loan);
        // The book below refuses a sum of 0.
        if sum > part {
            self.below.put(account, sum - part)?;
        }
        self.lines[account].loan -= part;
        Ok(())
    }
}
