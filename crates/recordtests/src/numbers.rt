//! Numbers at the edges of a slice.
use big_endian::{NoRoom, bytes_at, read, write};

#[test]
fn a_number_is_read_where_all_its_bytes_are_there(rt: HostRuntime) {
    let bytes = b"\x00\x01\x02\x03\x04\x05\x06\x07\x08";
    assert_eq!(rt; read(bytes, 1), Some(0x0102_0304_0506_0708u64));
    assert_eq!(rt; read::<u64, 8>(bytes, 2), None);
    assert_eq!(rt; read(bytes, 5), Some(0x0506_0708u32));
    assert_eq!(rt; read::<u32, 4>(bytes, 6), None);
    assert_eq!(rt; read::<u32, 4>(bytes, usize::MAX), None);
    assert_eq!(rt; read(bytes, 8), Some(8u8));
    assert_eq!(rt; read::<u8, 1>(bytes, 9), None);
    assert!(rt; bytes_at::<9>(bytes, 0).is_some() && bytes_at::<1>(bytes, 9).is_none());
}

#[test]
fn a_number_is_written_where_all_its_bytes_fit(rt: HostRuntime) {
    let mut space = [0u8; 9];
    assert_eq!(rt; write(&mut space, 2, u64::MAX), Err(NoRoom));
    assert_eq!(rt; write(&mut space, 6, u32::MAX), Err(NoRoom));
    assert_eq!(rt; write(&mut space, 9, u8::MAX), Err(NoRoom));
    assert_eq!(rt; write(&mut space, usize::MAX, u8::MAX), Err(NoRoom));
    assert!(rt; space == [0u8; 9]);
    assert_eq!(rt; write(&mut space, 1, 0x0102_0304_0506_0708u64), Ok(()));
    assert_eq!(rt; write(&mut space, 0, 0xfcfd_feffu32), Ok(()));
    assert_eq!(rt; write(&mut space, 8, 9u8), Ok(()));
    assert!(rt; &space == b"\xfc\xfd\xfe\xff\x04\x05\x06\x07\x09");
}
