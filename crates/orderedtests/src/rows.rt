//! Entries that come into a row and go out of it.
use crate::samples::{Held, Waiting, has};
use ordered::{insert, remove};
use std::test::Fail;

// The receipt that a full row hands back.
fn handed_back(row: &mut Vec<Held>, receipt: u8) -> Option<u8> {
    insert(row, Held { receipt }).err().map(|back| back.receipt)
}

// The receipt of the entry that goes out at a place.
fn taken(row: &mut Vec<Held>, place: usize) -> Option<u8> {
    remove(row, place).map(|out| out.receipt)
}

#[test]
fn entries_come_in_and_go_out_in_order(rt: HostRuntime) -> Result<(), Fail> {
    let mut row = Vec::with_capacity(rt.alloc(), 3)?;
    for receipt in [20, 30, 10] {
        assert_eq!(rt; handed_back(&mut row, receipt), None);
    }
    assert_eq!(rt; handed_back(&mut row, 15), Some(15));
    assert!(rt; has(row.as_slice(), &[10, 20, 30]));
    assert_eq!(rt; taken(&mut row, 3), None);
    assert_eq!(rt; taken(&mut row, 1), Some(20));
    assert!(rt; has(row.as_slice(), &[10, 30]));
    Ok(())
}

#[test]
fn priority_goes_before_mark_and_equal_priority_by_mark(rt: HostRuntime) -> Result<(), Fail> {
    let mut row = Vec::with_capacity(rt.alloc(), 4)?;
    for (priority, mark) in [(50, 7), (50, 3), (10, 9), (90, 1)] {
        assert!(rt; insert(&mut row, Waiting { priority, mark }).is_ok());
    }
    assert!(rt; row.iter().map(|waiting| waiting.mark).eq([9, 3, 7, 1]));
    Ok(())
}
