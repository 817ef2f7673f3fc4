//! What a book is, and the book over any row of figures: over a list, and over a page of bytes.
#![tactic(auto)]

pub use book::{Book, BookFault, Reason};
pub use pages::{Page, PageBook, PageFault, check_page};
pub use rows::{FigureBook, NotWritten, Row};
pub use tables::{RowFault, Table, TableBook, check_row};
