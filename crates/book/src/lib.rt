//! What a book of accounts is: for each account, what may still go out of it and what may still come in.
#![tactic(auto)]

mod book;
mod checks;
mod fault;
mod layer;
mod limits;

pub use book::Book;
pub use checks::{check_account, check_move};
pub use fault::{BookFault, Reason};
pub use layer::capped;
pub use limits::{LARGEST_ANSWER, LARGEST_FIGURE, LARGEST_LIMIT, LARGEST_SUM, MOST_ACCOUNTS};
