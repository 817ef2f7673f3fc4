//! The book with a sending room for each account, over any book.
#![tactic(auto)]

ghost use Rattle.rooms.specs.Rooms.{RoomRule};

use book::{Book, MOST_ACCOUNTS};

mod calls;

/// A book that lets out of each account no more than its sending room, over any book. What goes out lowers the room, and
/// what comes in raises it.
#[derive(Drop)]
pub struct RoomBook<B: Book> {
    below: B,
    // For every account that a book can have: a layer asks for no memory, and so can always be made.
    rooms: [u64; MOST_ACCOUNTS],
    ghost low: { RoomRule rooms },
}
