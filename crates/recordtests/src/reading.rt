//! The reader at each kind, each cut and each letter.
use crate::samples::{KINDS, REFERENCE, bytes_of, sample};
use records::{Kind, NoKind, ReadFault, Reader, read_record};
use std::test::Fail;

// The refusal at a place.
fn refusal(file: &[u8], at: usize) -> Option<ReadFault> {
    read_record(file, at).err()
}

// Whether there are no more records at a place.
fn is_end(file: &[u8], at: usize) -> bool {
    matches!(read_record(file, at), Ok(None))
}

#[test]
fn every_kind_is_read(rt: HostRuntime) -> Result<(), Fail> {
    for kind in KINDS {
        let file = bytes_of(kind);
        let Some((record, next)) = read_record(file, 0)? else {
            return Err(Fail::new("no record"));
        };
        assert_eq!(rt; record.kind(), kind);
        assert_eq!(rt; record.size(), file.len());
        assert_eq!(rt; next, file.len());
        assert_eq!(rt; record, sample(kind, REFERENCE));
    }
    Ok(())
}

#[test]
fn a_cut_at_each_byte_is_refused(rt: HostRuntime) {
    for kind in KINDS {
        let file = bytes_of(kind);
        assert_eq!(rt; file.len(), 1 + kind.body_len());
        for len in 1..file.len() {
            assert_eq!(rt;
                refusal(&file[0..len], 0),
                Some(ReadFault::CutBody { place: 0 })
            );
        }
        assert_eq!(rt; refusal(file, 0), None);
    }
    assert_eq!(rt; ReadFault::CutBody { place: 7 }.number(), 16);
    assert_eq!(rt; ReadFault::CutBody { place: 7 }.place(), 7);
}

#[test]
fn every_other_letter_is_refused(rt: HostRuntime) {
    for letter in 0..=255u8 {
        let file = [b'R', letter, 0];
        match Kind::try_from(letter) {
            Ok(kind) => {
                assert!(rt; b"OFDSAWLRBC".contains(&letter));
                assert_eq!(rt; kind.letter(), letter);
            }
            Err(NoKind(other)) => {
                assert_eq!(rt; other, letter);
                assert_eq!(rt;
                    refusal(&file, 1),
                    Some(ReadFault::UnknownLetter { place: 1 })
                );
            }
        }
    }
    let known = (0..=255u8).filter(|letter| Kind::try_from(*letter).is_ok());
    assert_eq!(rt; known.count(), 10);
    assert_eq!(rt; ReadFault::UnknownLetter { place: 7 }.number(), 15);
    assert_eq!(rt; ReadFault::UnknownLetter { place: 7 }.place(), 7);
}

#[test]
fn there_is_no_record_at_the_end_or_past_it(rt: HostRuntime) {
    assert!(rt; is_end(b"", 0));
    assert!(rt; is_end(b"", 1));
    assert!(rt; is_end(b"RBC", 3));
    assert!(rt; is_end(b"RBC", 4));
    assert!(rt; is_end(b"RBC", usize::MAX));
    assert!(rt; !is_end(b"RBC", 2));
}

#[test]
fn a_refusal_leaves_the_reader_where_it_stands(rt: HostRuntime) -> Result<(), Fail> {
    let mut reader = Reader::new(b"RBW\x01");
    assert_eq!(rt; reader.place(), 0);
    assert!(rt; reader.next_record()?.is_some());
    assert_eq!(rt; reader.place(), 1);
    assert!(rt; reader.next_record()?.is_some());
    assert_eq!(rt; reader.place(), 2);
    assert!(rt; reader.next_record().is_err());
    assert_eq!(rt; reader.place(), 2);
    assert!(rt; reader.next_record().is_err());
    assert_eq!(rt; reader.place(), 2);
    Ok(())
}
