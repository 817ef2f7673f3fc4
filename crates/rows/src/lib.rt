//! The book over any row of figures.
#![tactic(auto)]

mod figure_book;
mod row;

pub use figure_book::FigureBook;
pub use row::{NotWritten, Row};
