//! Entries that move within a row.
use crate::samples::{Held, has};
use ordered::{NoPlace, place_last, place_of, send_last};
use std::test::Fail;

// A row of four.
fn four(receipts: [u8; 4]) -> [Held; 4] {
    receipts.map(|receipt| Held { receipt })
}

#[test]
fn an_entry_stands_before_the_first_that_it_precedes(rt: HostRuntime) {
    let row = four([10, 20, 30, 40]);
    for (receipt, place) in [(5, 0), (10, 1), (15, 1), (25, 2), (40, 4), (45, 4)] {
        assert_eq!(rt; place_of(&row, &Held { receipt }), place);
    }
    assert_eq!(rt; place_of(&[], &Held { receipt: 1 }), 0);
}

#[test]
fn the_last_goes_to_its_place_and_the_others_keep_their_order(rt: HostRuntime) {
    let mut first = four([20, 30, 40, 10]);
    let mut middle = four([40, 10, 30, 20]);
    let mut last = four([10, 20, 30, 40]);
    place_last(&mut first);
    place_last(&mut middle);
    place_last(&mut last);
    assert!(rt; has(&first, &[10, 20, 30, 40]) && has(&middle, &[20, 40, 10, 30]));
    assert!(rt; has(&last, &[10, 20, 30, 40]));
}

#[test]
fn a_row_of_none_stays_empty(rt: HostRuntime) {
    let mut none: [Held; 0] = [];
    place_last(&mut none);
    assert!(rt; has(&none, &[]));
    assert_eq!(rt; send_last(&mut none, 0), Err(NoPlace { place: 0 }));
}

#[test]
fn an_entry_is_sent_behind_the_others(rt: HostRuntime) {
    let mut row = four([10, 20, 30, 40]);
    assert_eq!(rt; send_last(&mut row, 0), Ok(()));
    assert!(rt; has(&row, &[20, 30, 40, 10]));
    assert_eq!(rt; send_last(&mut row, 1), Ok(()));
    assert!(rt; has(&row, &[20, 40, 10, 30]));
    assert_eq!(rt; send_last(&mut row, 3), Ok(()));
    assert!(rt; has(&row, &[20, 40, 10, 30]));
    assert_eq!(rt; send_last(&mut row, 4), Err(NoPlace { place: 4 }));
    assert!(rt; has(&row, &[20, 40, 10, 30]));
}

#[test]
fn a_refusal_names_the_place(rt: HostRuntime) -> Result<(), Fail> {
    let text = NoPlace { place: 4 }.to_string(rt.alloc())?;
    assert_eq!(rt; text.as_str(), "there is no place 4");
    Ok(())
}
