//! The book over a row of figures in a list.
#![tactic(auto)]

use rows::FigureBook;

mod fault;
mod table;

pub use fault::RowFault;
pub use table::{Table, check_row};

/// The book over a table.
pub type TableBook = FigureBook<Table>;
