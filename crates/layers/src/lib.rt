//! The books that stand over any other book: the credit book and the room book.
#![tactic(auto)]

pub use credit::CreditBook;
pub use rooms::RoomBook;
