//! Whole files: read, written, listed, and read from an input.
use files::{FileFault, append_record, read_file, read_front, read_input, write_file};
use lines::Verdict;
use listing::list;
use records::{ReadFault, Record, WriteFault};
use std::test::Fail;

// A record of each kind, in the order of the letters in `LETTERS`.
const FILE: &[u8] =
    b"O\x03\x01\x02\x03\x04\x05\x06\x07\x08\x11\x12\x13\x14\x15\x16\x17\x18\xf1\xf2\xf3\xf4\xf5\xf6\xf7\xf8F\x0f\x00\x00\x5a\xf3\x10\x7a\x40\x00D\xff\x00\x00\x00\x00\x00\x00\x00\x01S\x01\x02\x00\x00\x00\x00\x00\x00\x01\x2c\x32\x01INV-0001A\x04\x00\x00\xea\x60W\x05\x01\x02\x03\x04L\x06\x00\x00\x00\x07\x63RBC";

const LETTERS: &[u8] = b"OFDSAWLRBC";

#[test]
fn a_file_of_all_kinds_comes_back(rt: HostRuntime) -> Result<(), Fail> {
    let heap = rt.alloc();
    let records = read_file(heap, FILE)?;
    assert_eq!(rt; records.len(), LETTERS.len());
    let mut place = 0usize;
    for (placed, letter) in records.iter().zip(LETTERS.iter()) {
        assert_eq!(rt; placed.place, place);
        assert_eq!(rt; placed.record.kind().letter(), *letter);
        place = place.saturating_add(placed.record.size());
    }
    assert_eq!(rt; place, FILE.len());
    let copy = write_file(heap, records.as_slice())?;
    assert!(rt; copy.as_slice() == FILE);
    Ok(())
}

#[test]
fn what_was_read_before_a_refusal_is_kept(rt: HostRuntime) -> Result<(), Fail> {
    let heap = rt.alloc();
    for (file, count, fault) in [
        (b"RB?C".as_slice(), 2, ReadFault::UnknownLetter { place: 2 }),
        (
            b"CA\x01\x00\x00\x00".as_slice(),
            1,
            ReadFault::CutBody { place: 1 },
        ),
        (b"D".as_slice(), 0, ReadFault::CutBody { place: 0 }),
    ] {
        let front = read_front(heap, file)?;
        assert_eq!(rt; front.records.len(), count);
        assert_eq!(rt; front.stop, Some(fault));
        let Err(refused) = read_file(heap, file) else {
            return Err(Fail::new("it was read"));
        };
        assert_eq!(rt; refused, FileFault::Read(fault));
        assert_eq!(rt; refused.number(), Some(fault.number()));
    }
    Ok(())
}

#[test]
fn a_record_is_added_or_the_file_stays(rt: HostRuntime) -> Result<(), Fail> {
    let mut file = Vec::new(rt.alloc());
    append_record(&mut file, &Record::Run)?;
    let bad = Record::Submit {
        sender: 1,
        receiver: 2,
        amount: 3,
        priority: 4,
        flag: 0,
        reference: b"INV-001",
    };
    let Err(fault) = append_record(&mut file, &bad) else {
        return Err(Fail::new("it was written"));
    };
    assert_eq!(rt; fault, FileFault::Write(WriteFault::BadReference));
    assert_eq!(rt; fault.number(), Some(16));
    assert_eq!(rt; FileFault::Memory.number(), None);
    let withdraw = Record::Withdraw {
        sender: 5,
        receipt: 0x0102_0304,
    };
    append_record(&mut file, &withdraw)?;
    assert!(rt; file.as_slice() == b"RW\x05\x01\x02\x03\x04".as_slice());
    Ok(())
}

#[test]
fn a_listing_says_what_took_place(rt: HostRuntime) -> Result<(), Fail> {
    let heap = rt.alloc();
    let empty = list(heap, b"", false)?;
    assert!(rt; empty.text.as_str() == "wrote back records=0 bytes=0: the same file\n");
    assert_eq!(rt; empty.verdict, Verdict::Same);
    let refused = list(heap, b"BL\x01\x00\x00\x00\x02\x0aX", false)?;
    assert!(rt;
        refused.text.as_str()
            == "1 at 0: B show\n2 at 1: L reprioritise sender=1 receipt=2 priority=10\n3 at 8: refused 15, no kind of record has this letter\nwrote back records=2 bytes=8: not the same file, which has 9 bytes\n"
    );
    assert_eq!(rt; refused.verdict, Verdict::Front { of: 9 });
    assert!(rt; refused.copy.as_slice() == b"BL\x01\x00\x00\x00\x02\x0a".as_slice());
    let cut = list(heap, b"CF\x00", true)?;
    assert!(rt;
        cut.text.as_str()
            == "1 at 0: C close\n2 at 1: refused 16, the file ends inside this record\nwrote back records=1 bytes=1: not the same file, which is longer than 65536 bytes and was read no further\n"
    );
    assert_eq!(rt; cut.verdict, Verdict::Longer);
    Ok(())
}

#[test]
fn an_input_is_read_up_to_the_limit(rt: HostRuntime) -> Result<(), Fail> {
    let heap = rt.alloc();
    let long = vec![in heap; b'R'; 65_537]?;
    let over = read_input(heap, long.as_slice())?;
    assert_eq!(rt; over.bytes.len(), 65_536);
    assert!(rt; over.has_more);
    let exact = read_input(heap, &long[0..65_536])?;
    assert_eq!(rt; exact.bytes.len(), 65_536);
    assert!(rt; !exact.has_more);
    let none = read_input(heap, &long[0..0])?;
    assert!(rt; none.bytes.is_empty() && !none.has_more);
    Ok(())
}
