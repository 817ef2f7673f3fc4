//! A page under a stack, pages that make no book, and rows of limits of another length.
use books::{Book, BookFault, Page, PageBook, PageFault, Reason, check_page};
use layers::{CreditBook, RoomBook};
use std::test::Fail;

// Two accounts, which hold 259 and 10^16.
const PAGE: [u8; 18] = [
    b'P', 0, 0, 0, 0, 0, 0, 1, 3, b'P', 0, 0x23, 0x86, 0xf2, 0x6f, 0xc1, 0, 0,
];

#[test]
fn a_take_goes_through_room_and_credit_to_the_page(rt: HostRuntime) -> Result<(), Fail> {
    let page = PAGE.to_vec(rt.alloc())?;
    let lending = CreditBook::new(PageBook::over(Page::new(page)), &[50]);
    let mut book = RoomBook::new(lending, &[1_000]);
    assert_eq!(rt; book.ask_sendable(0), Ok(309));
    assert_eq!(rt; book.ask_sendable(1), Ok(0));
    assert_eq!(rt; book.take(0, 2), Ok(()));
    assert_eq!(rt;
        book.put(1, 1),
        Err(BookFault {
            account: 1,
            sum: 1,
            reason: Reason::AboveOpen,
        })
    );
    let mut after = PAGE;
    after[8] = 1;
    assert_eq!(rt; book.below().below().row().bytes(), after.as_slice());
    Ok(())
}

#[test]
fn a_page_is_checked_from_its_first_record(rt: HostRuntime) {
    assert_eq!(rt; check_page(&PAGE), Ok(2));
    assert_eq!(rt;
        check_page(&PAGE[0..17]),
        Err(PageFault::BadLength { length: 17 })
    );
    let mut page = PAGE;
    page[17] = 1;
    assert_eq!(rt;
        check_page(&page),
        Err(PageFault::LargeFigure {
            account: 1,
            figure: 10_000_000_000_000_001,
        })
    );
    page[9] = b'Q';
    assert_eq!(rt;
        check_page(&page),
        Err(PageFault::BadLetter {
            account: 1,
            letter: b'Q',
        })
    );
}

#[test]
fn a_page_that_makes_no_book_has_no_accounts(rt: HostRuntime) -> Result<(), Fail> {
    let book = PageBook::over(Page::new(PAGE[0..10].to_vec(rt.alloc())?));
    assert_eq!(rt; book.count(), 0);
    assert_eq!(rt; book.row().bytes(), &PAGE[0..10]);
    Ok(())
}
