//! The book over a page of bytes.
#![tactic(auto)]

ghost use Rattle.pages.specs.Pages.{Formed};

use rows::FigureBook;

mod calls;
mod fault;

pub use calls::check_page;
pub use fault::PageFault;

/// A page of bytes, 9 for each of at most 16 accounts: the letter P, then a figure of at most 10^16 in eight bytes, the
/// greatest first.
#[derive(Drop)]
pub struct Page {
    bytes: Vec<u8>,
    // Not told by the length: bytes that make no book are kept too, with no accounts.
    accounts: usize,
    ghost formed: { Formed accounts bytes.items },
}

/// The book over a page.
pub type PageBook = FigureBook<Page>;
