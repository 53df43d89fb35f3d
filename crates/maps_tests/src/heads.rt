// Heads of every major type and width, and what a reader takes and leaves.
use maps::Reader;
use protocol::Fault;
use std::test::Fail;

// Bytes that are one head, with its major type and argument. The type is its number in RFC 8949, and no word of the code that is tested.
#[derive(Clone, Copy)]
struct Whole(&'static [u8], u8, u64);

const WHOLE: [Whole; 24] = [
    Whole(b"\x00", 0, 0),
    Whole(b"\x01", 0, 1),
    Whole(b"\x17", 0, 23),
    Whole(b"\x18\x00", 0, 0),
    Whole(b"\x18\x17", 0, 23),
    Whole(b"\x18\x18", 0, 24),
    Whole(b"\x18\xff", 0, 255),
    Whole(b"\x19\x00\xff", 0, 255),
    Whole(b"\x19\x01\x00", 0, 256),
    Whole(b"\x19\x01\x01", 0, 257),
    Whole(b"\x19\xff\xff", 0, 65535),
    Whole(b"\x1a\x00\x01\x00\x00", 0, 65536),
    Whole(b"\x1a\x01\x02\x03\x04", 0, 16909060),
    Whole(b"\x1a\xff\xff\xff\xff", 0, 4294967295),
    Whole(b"\x1b\x00\x00\x00\x01\x00\x00\x00\x00", 0, 4294967296),
    Whole(
        b"\x1b\x01\x02\x03\x04\x05\x06\x07\x08",
        0,
        72623859790382856,
    ),
    Whole(
        b"\x1b\xff\xff\xff\xff\xff\xff\xff\xff",
        0,
        18446744073709551615,
    ),
    Whole(b"\x20", 1, 0),
    Whole(b"\x58\x18", 2, 24),
    Whole(b"\x77", 3, 23),
    Whole(b"\x99\x01\x00", 4, 256),
    Whole(b"\xa8", 5, 8),
    Whole(b"\xda\x00\x01\x00\x00", 6, 65536),
    Whole(
        b"\xfb\xff\xff\xff\xff\xff\xff\xff\xff",
        7,
        18446744073709551615,
    ),
];

#[test]
fn whole_heads(rt: HostRuntime) -> Result<(), Fail> {
    for (i, row) in WHOLE.iter().enumerate() {
        let mut reader = Reader::new(row.0);
        let head = reader.head()?;
        assert_eq!(rt; head.major as u8, row.1, "row {i}");
        assert_eq!(rt; head.argument, row.2, "row {i}");
        assert!(rt; reader.is_done(), "row {i}");
    }
    Ok(())
}

// Bytes that begin with no head, and the fault.
#[derive(Clone, Copy)]
struct Faulty(&'static [u8], Fault);

const FAULTY: [Faulty; 18] = [
    Faulty(b"", Fault::Ends),
    Faulty(b"\x18", Fault::Ends),
    Faulty(b"\x19", Fault::Ends),
    Faulty(b"\x19\x01", Fault::Ends),
    Faulty(b"\x1a\x01\x02\x03", Fault::Ends),
    Faulty(b"\x1b\x01\x02\x03\x04\x05\x06\x07", Fault::Ends),
    Faulty(b"\xf8", Fault::Ends),
    Faulty(b"\xfb\x00\x00\x00\x00\x00\x00\x00", Fault::Ends),
    Faulty(b"\x1c", Fault::WrongType),
    Faulty(b"\x1d\x00", Fault::WrongType),
    Faulty(b"\x1e\x00\x00", Fault::WrongType),
    Faulty(b"\x1f", Fault::WrongType),
    Faulty(b"\x3c", Fault::WrongType),
    Faulty(b"\x5f", Fault::WrongType),
    Faulty(b"\x7d", Fault::WrongType),
    Faulty(b"\x9f", Fault::WrongType),
    Faulty(b"\xbf", Fault::WrongType),
    Faulty(b"\xff", Fault::WrongType),
];

// A fault is told again and again, since nothing is taken, and the bytes can still be taken as a text.
#[test]
fn faulty_heads(rt: HostRuntime) -> Result<(), Fail> {
    for (i, row) in FAULTY.iter().enumerate() {
        let mut reader = Reader::new(row.0);
        assert_eq!(rt; reader.head().err(), Some(row.1), "row {i}");
        assert_eq!(rt; reader.head().err(), Some(row.1), "row {i}");
        assert_eq!(rt; reader.text(row.0.len() as u64)?, row.0, "row {i}");
        assert!(rt; reader.is_done(), "row {i}");
    }
    Ok(())
}

// Heads and texts in turn; a text that is too long is not taken.
#[test]
fn in_turn(rt: HostRuntime) -> Result<(), Fail> {
    let mut reader = Reader::new(b"\x62ab\x1a\x00\x00\x00\x05c");
    assert_eq!(rt; reader.head()?.argument, 2);
    assert_eq!(rt; reader.text(2)?, b"ab".as_slice());
    assert_eq!(rt; reader.head()?.argument, 5);
    assert_eq!(rt; reader.text(2).err(), Some(Fault::Ends));
    assert_eq!(rt; reader.text(18446744073709551615).err(), Some(Fault::Ends));
    assert!(rt; !reader.is_done());
    assert_eq!(rt; reader.text(0)?, b"".as_slice());
    assert_eq!(rt; reader.text(1)?, b"c".as_slice());
    assert!(rt; reader.is_done());
    Ok(())
}
