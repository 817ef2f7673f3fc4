//! The writer at each kind, each space and each length of a reference.
use crate::samples::{KINDS, REFERENCE, bytes_of, sample};
use records::{Kind, WriteFault, write_record};
use std::test::Fail;

const FILLER: u8 = 0xaa;

// Whether a space is as it was.
fn is_untouched(space: &[u8]) -> bool {
    space.iter().all(|byte| *byte == FILLER)
}

#[test]
fn every_kind_is_written(rt: HostRuntime) -> Result<(), Fail> {
    for kind in KINDS {
        let mut space = [FILLER; 30];
        let expected = bytes_of(kind);
        let size = write_record(&sample(kind, REFERENCE), &mut space)?;
        assert!(rt; size <= 30);
        assert!(rt; &space[0..size] == expected);
        assert!(rt; is_untouched(&space[size..30]));
    }
    Ok(())
}

#[test]
fn a_space_of_just_the_size_serves_and_one_less_does_not(rt: HostRuntime) -> Result<(), Fail> {
    for kind in KINDS {
        let expected = bytes_of(kind);
        let size = expected.len();
        let record = sample(kind, REFERENCE);
        assert_eq!(rt; record.size(), size);
        assert!(rt; 1 <= size);
        let mut short = vec![in rt.alloc(); FILLER; size - 1]?;
        assert_eq!(rt;
            write_record(&record, short.as_mut_slice()),
            Err(WriteFault::ShortSpace)
        );
        assert!(rt; is_untouched(short.as_slice()));
        let mut just = vec![in rt.alloc(); FILLER; size]?;
        assert_eq!(rt; write_record(&record, just.as_mut_slice()), Ok(size));
        assert!(rt; just.as_slice() == expected);
    }
    assert_eq!(rt; WriteFault::ShortSpace.number(), 13);
    Ok(())
}

#[test]
fn a_reference_of_another_length_is_refused_first(rt: HostRuntime) {
    let bytes = b"INV-00012";
    for len in 0..10 {
        let record = sample(Kind::Submit, &bytes[0..len]);
        let mut space = [FILLER; 30];
        let mut none = [FILLER; 0];
        if len == 8 {
            assert_eq!(rt;
                write_record(&record, &mut none),
                Err(WriteFault::ShortSpace)
            );
            assert_eq!(rt; write_record(&record, &mut space), Ok(21));
        } else {
            assert_eq!(rt;
                write_record(&record, &mut none),
                Err(WriteFault::BadReference)
            );
            assert_eq!(rt;
                write_record(&record, &mut space),
                Err(WriteFault::BadReference)
            );
            assert!(rt; is_untouched(&space));
        }
    }
    assert_eq!(rt; WriteFault::BadReference.number(), 16);
}
