//! What a room book answers and does.
ghost use Rattle.std.specs.Prelude.{◌≡◌};
ghost use Rattle.book.specs.Moves.{Taken, Put, MoveKeeps};
ghost use Rattle.book.specs.Layers.{Capped, Leaves};
ghost use Rattle.rooms.specs.Rooms.{room_means, spend, regain};
ghost use Rattle.rooms.specs.Books.{rooms_of, Stands};
ghost use Rattle.book.proofs.Layers.{length-layered};

use crate::RoomBook;
use book::{Book, BookFault, LARGEST_ANSWER, Reason, capped, check_move};

impl<B: Book> RoomBook<B> {
    /// The book over `below` with these rooms. A room above 10^15 counts as 10^15, and an account for which the row is
    /// too short has the room 0.
    pub fn new(below: B, rooms: &[u64]) -> RoomBook<B>
        ensures below { result.below ≡ below }
        ensures rooms { Capped rooms.now result.rooms }
        ensures standing { B.Book.standing below → Stands B.Book result }
    {
        RoomBook {
            below,
            rooms: capped(rooms),
        }
    }

    // A credit book lends its book below by the same line: a trait for it would be longer than both.
    /// The book below.
    pub fn below(&self) -> &B
        ensures value { result.now ≡ self.now.below }
    {
        &self.below
    }
}

impl<B: Book> Book for RoomBook<B> {
    ghost means = { λ b. room_means (rooms_of B.Book b) };

    ghost standing = { λ b. Stands B.Book b };

    ghost few = { λ b. rw length-layered (B.few b.below) };

    fn count(&self) -> usize {
        self.below().count()
    }

    // Each direction has its own call, here as in take and put: one for both would hide which way money goes.
    fn ask_sendable(&self, account: usize) -> Result<u64, BookFault> {
        let own = self.below.ask_sendable(account)?;
        Ok(own.min(self.rooms[account]))
    }

    fn ask_open(&self, account: usize) -> Result<u64, BookFault> {
        let own = self.below.ask_open(account)?;
        Ok(own.min(LARGEST_ANSWER - self.rooms[account]))
    }

    fn take(&mut self, account: usize, sum: u64) -> Result<(), BookFault>
        ensures answer { Taken (room_means (rooms_of B.Book self.old)) account sum result (room_means (rooms_of B.Book self.new)) }
        ensures keeps { MoveKeeps (λ b. room_means (rooms_of B.Book b)) (λ b. Stands B.Book b) self.old result self.new }
        ensures rooms { Leaves (rooms_of B.Book self.old) (spend (rooms_of B.Book self.old) account sum) result (rooms_of B.Book self.new) }
    {
        check_move(self.below.count(), account, sum)?;
        let room = self.rooms[account];
        if sum > room {
            return Err(Reason::AboveSendable.at(account, sum));
        }
        self.below.take(account, sum)?;
        self.rooms[account] = room - sum;
        Ok(())
    }

    fn put(&mut self, account: usize, sum: u64) -> Result<(), BookFault>
        ensures answer { Put (room_means (rooms_of B.Book self.old)) account sum result (room_means (rooms_of B.Book self.new)) }
        ensures keeps { MoveKeeps (λ b. room_means (rooms_of B.Book b)) (λ b. Stands B.Book b) self.old result self.new }
        ensures rooms { Leaves (rooms_of B.Book self.old) (regain (rooms_of B.Book self.old) account sum) result (rooms_of B.Book self.new) }
    {
        check_move(self.below.count(), account, sum)?;
        let room = self.rooms[account];
        if sum > LARGEST_ANSWER - room {
            return Err(Reason::AboveOpen.at(account, sum));
        }
        self.below.put(account, sum)?;
        self.rooms[account] = room + sum;
        Ok(())
    }
}
