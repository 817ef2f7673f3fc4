//! What a page answers and does.
ghost use Rattle.std.specs.Prelude.{◌≡◌};
ghost use Rattle.rows.specs.Rows.{Low};
ghost use Rattle.pages.specs.Pages.{letter_at, figure_at, PageChecked, RecordChecked};
ghost use Rattle.pages.specs.Books.{bytes_in, figures_in, Keeps, Written};
ghost use Rattle.pages.specs.Lengths.{length_figures};

use crate::{Page, PageFault};
use big_endian::{read, write};
use book::{LARGEST_FIGURE, MOST_ACCOUNTS};
use rows::{NotWritten, Row};

/// What each record of a page begins with.
const LETTER: u8 = b'P';

/// The bytes of a record: the letter, and the figure in eight.
const RECORD_SIZE: usize = 9;

// Whether the record of an account is well formed. It refuses 15, then 2.
fn check_record(bytes: &[u8; RECORD_SIZE], account: usize) -> Result<(), PageFault>
    ensures answer { RecordChecked (letter_at bytes.now 0) (figure_at bytes.now 0) account result }
{
    let letter = bytes[0];
    if letter != LETTER {
        return Err(PageFault::BadLetter { account, letter });
    }
    let figure = read(bytes, 1).unwrap();
    if figure > LARGEST_FIGURE {
        return Err(PageFault::LargeFigure { account, figure });
    }
    Ok(())
}

/// Whether a page makes a book, and of how many accounts. It refuses 13 for a length that is not 9 times 1 to 16, then,
/// record by record from the first, 15 for a letter that is not P, before 2 for a figure above 10^16.
pub fn check_page(page: &[u8]) -> Result<usize, PageFault>
    ensures answer { PageChecked page.now result }
{
    let (records, rest) = page.as_chunks::<RECORD_SIZE>();
    let accounts = records.len();
    if accounts == 0 || accounts > MOST_ACCOUNTS || !rest.is_empty() {
        return Err(PageFault::BadLength { length: page.len() });
    }
    for (account, record) in records.iter().enumerate() {
        check_record(record, account)?;
    }
    Ok(accounts)
}

impl Page {
    /// The page of these bytes. Bytes that `check_page` refuses make a page of no accounts, and are kept.
    #[tactic(auto, using(crate::proofs::Pages::kept))]
    pub fn new(bytes: Vec<u8>) -> Page
        ensures page { Keeps bytes.items result }
        ensures low { Low (figures_in result) }
    {
        let accounts = check_page(&bytes).unwrap_or(0);
        Page { bytes, accounts }
    }

    /// The bytes as they stand.
    pub fn bytes(&self) -> &[u8]
        ensures value { result.now ≡ bytes_in self.now }
    {
        &self.bytes
    }
}

#[tactic(auto, using(crate::proofs::Pages::as_a_row))]
impl Row for Page {
    ghost figures = { λ p. figures_in p };

    ghost wrote = { λ p k n q. Written p k n q };

    ghost few = { λ p. rw length_figures p.formed.0 };

    ghost low = { λ p. p.formed.2 };

    fn count(&self) -> usize {
        self.accounts
    }

    fn figure(&self, place: usize) -> Option<u64> {
        if place >= self.accounts {
            return None;
        }
        read(self.bytes(), RECORD_SIZE * place + 1)
    }

    /// As every row does. Of the page the eight bytes of the figure change, and no other.
    fn write(&mut self, place: usize, figure: u64) -> Result<(), NotWritten> {
        if place >= self.accounts || figure > LARGEST_FIGURE {
            return Err(NotWritten);
        }
        write(&mut self.bytes, RECORD_SIZE * place + 1, figure).unwrap();
        Ok(())
    }
}
