//! The book over any row of figures.
ghost use Rattle.std.specs.Prelude.{◌≡◌, ◌+◌, ◌-◌, OnOk, slice_index};
ghost use Rattle.std.proofs.lemmas.List.{length-map};
ghost use Rattle.book.specs.Moves.{Taken, Put, MoveKeeps};
ghost use Rattle.rows.specs.Books.{figures_in, means_of, IsLow};

use crate::row::Row;
use book::{Book, BookFault, LARGEST_FIGURE, Reason, check_move};

/// The book over a row of figures: a figure may be sent, and what is left up to 10^16 may come in.
#[derive(Drop)]
pub struct FigureBook<R> {
    row: R,
}

impl<R: Row> FigureBook<R> {
    /// The book over this row.
    pub fn over(row: R) -> FigureBook<R>
        ensures row { result.row ≡ row }
        ensures standing { IsLow R.Row result }
    {
        FigureBook { row }
    }

    /// The row as it stands.
    pub fn row(&self) -> &R
        ensures value { result.now ≡ self.now.row }
    {
        &self.row
    }
}

// Take and put are two functions, and so are the two questions: one for both would hide which way money goes.
#[tactic(auto, using(std::proofs::lemmas::Option::get_or_from_slice_get))]
impl<R: Row> Book for FigureBook<R> {
    ghost means = { λ b. means_of R.Row b };

    ghost standing = { λ b. IsLow R.Row b };

    ghost few = { λ b. rw length-map (R.few b.row) };

    fn count(&self) -> usize {
        self.row().count()
    }

    fn ask_sendable(&self, account: usize) -> Result<u64, BookFault> {
        self.row
            .figure(account)
            .ok_or(Reason::NoAccount.at(account, 0))
    }

    #[tactic(auto, using(crate::proofs::Rows::sent_most, crate::proofs::Rows::left_is))]
    fn ask_open(&self, account: usize) -> Result<u64, BookFault> {
        let figure = self.ask_sendable(account)?;
        Ok(LARGEST_FIGURE - figure)
    }

    /// As every book does. Of the row the figure of the account is written, and nothing else.
    fn take(&mut self, account: usize, sum: u64) -> Result<(), BookFault>
        ensures answer { Taken (means_of R.Row self.old) account sum result (means_of R.Row self.new) }
        ensures keeps { MoveKeeps (means_of R.Row) (IsLow R.Row) self.old result self.new }
        ensures row { OnOk result (R.wrote self.old.row account (slice_index (figures_in R.Row self.old) account - sum) self.new.row) }
    {
        check_move(self.row.count(), account, sum)?;
        let figure = self.row.figure(account).unwrap();
        if sum > figure {
            return Err(Reason::AboveSendable.at(account, sum));
        }
        self.row.write(account, figure - sum).unwrap();
        Ok(())
    }

    /// As every book does. Of the row the figure of the account is written, and nothing else.
    fn put(&mut self, account: usize, sum: u64) -> Result<(), BookFault>
        ensures answer { Put (means_of R.Row self.old) account sum result (means_of R.Row self.new) }
        ensures keeps { MoveKeeps (means_of R.Row) (IsLow R.Row) self.old result self.new }
        ensures row { OnOk result (R.wrote self.old.row account (slice_index (figures_in R.Row self.old) account + sum) self.new.row) }
    {
        check_move(self.row.count(), account, sum)?;
        let figure = self.row.figure(account).unwrap();
        if sum > LARGEST_FIGURE - figure {
            return Err(Reason::AboveOpen.at(account, sum));
        }
        self.row.write(account, figure + sum).unwrap();
        Ok(())
    }
}
