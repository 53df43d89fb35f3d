// Maps without a fault, and the properties that they give.
use maps::{Properties, read};
use protocol::Fault;
use std::process::Abort;
use std::test::Fail;

// Empty maps, with every width of the count.
const EMPTY: [&[u8]; 5] = [
    b"\xa0",
    b"\xb8\x00",
    b"\xb9\x00\x00",
    b"\xba\x00\x00\x00\x00",
    b"\xbb\x00\x00\x00\x00\x00\x00\x00\x00",
];

#[test]
fn empty(rt: HostRuntime) -> Result<(), Fail> {
    for (i, bytes) in EMPTY.iter().enumerate() {
        assert_eq!(rt; read(bytes)?, Properties::default(), "row {i}");
    }
    Ok(())
}

// Maps that give 9 for max subscribers, with every width of the count and of the key.
const KEYS: [&[u8]; 9] = [
    b"\xa1\x06\x09",
    b"\xa1\x18\x06\x09",
    b"\xa1\x19\x00\x06\x09",
    b"\xa1\x1a\x00\x00\x00\x06\x09",
    b"\xa1\x1b\x00\x00\x00\x00\x00\x00\x00\x06\x09",
    b"\xb8\x01\x06\x09",
    b"\xb9\x00\x01\x06\x09",
    b"\xba\x00\x00\x00\x01\x06\x09",
    b"\xbb\x00\x00\x00\x00\x00\x00\x00\x01\x06\x09",
];

#[test]
fn keys(rt: HostRuntime) -> Result<(), Fail> {
    let wanted = Properties {
        max_subscribers: Some(9),
        ..Properties::default()
    };
    for (i, bytes) in KEYS.iter().enumerate() {
        assert_eq!(rt; read(bytes)?, wanted, "row {i}");
    }
    Ok(())
}

// Maps that give 7 for the expiration, with every width of the tag.
const TAGS: [&[u8]; 5] = [
    b"\xa1\x05\xc1\x07",
    b"\xa1\x05\xd8\x01\x07",
    b"\xa1\x05\xd9\x00\x01\x07",
    b"\xa1\x05\xda\x00\x00\x00\x01\x07",
    b"\xa1\x05\xdb\x00\x00\x00\x00\x00\x00\x00\x01\x07",
];

#[test]
fn tags(rt: HostRuntime) -> Result<(), Fail> {
    let wanted = Properties {
        expiration: Some(7),
        ..Properties::default()
    };
    for (i, bytes) in TAGS.iter().enumerate() {
        assert_eq!(rt; read(bytes)?, wanted, "row {i}");
    }
    Ok(())
}

// An unsigned number's bytes, and the number.
#[derive(Clone, Copy)]
struct Number(&'static [u8], u64);

const NUMBERS: [Number; 18] = [
    Number(b"\x00", 0),
    Number(b"\x01", 1),
    Number(b"\x17", 23),
    Number(b"\x18\x00", 0),
    Number(b"\x18\x17", 23),
    Number(b"\x18\x18", 24),
    Number(b"\x18\x64", 100),
    Number(b"\x18\xff", 255),
    Number(b"\x19\x00\xff", 255),
    Number(b"\x19\x01\x00", 256),
    Number(b"\x19\x01\x01", 257),
    Number(b"\x19\xff\xff", 65535),
    Number(b"\x1a\x00\x00\x00\x01", 1),
    Number(b"\x1a\x00\x01\x00\x00", 65536),
    Number(b"\x1a\xff\xff\xff\xff", 4294967295),
    Number(b"\x1b\x00\x00\x00\x00\x00\x00\x00\x01", 1),
    Number(b"\x1b\x00\x00\x00\x01\x00\x00\x00\x00", 4294967296),
    Number(
        b"\x1b\xff\xff\xff\xff\xff\xff\xff\xff",
        18446744073709551615,
    ),
];

// A map of one key and its value, which has at most 40 bytes.
fn with_key(rt: &impl Abort, row: usize, start: &[u8], value: &[u8], room: &mut [u8; 48]) -> usize {
    assert!(rt; start.len() <= 4 && value.len() <= 40, "row {row}");
    let n = start.len() + value.len();
    room[0..start.len()].copy_from_slice(start);
    room[start.len()..n].copy_from_slice(value);
    n
}

// A map of this start and value gives the properties that are wanted.
fn check_given(rt: &impl Abort, row: usize, start: &[u8], value: &[u8], wanted: Properties<'_>) {
    let mut room = [0; 48];
    let n = with_key(rt, row, start, value, &mut room);
    assert!(rt; n <= 48, "row {row}");
    assert_eq!(rt; read(&room[0..n]), Ok(wanted), "row {row}");
}

#[test]
fn numbers(rt: HostRuntime) {
    for (i, row) in NUMBERS.iter().enumerate() {
        let number = Some(row.1);
        check_given(
            &rt,
            i,
            b"\xa1\x03",
            row.0,
            Properties {
                content_format: number,
                ..Properties::default()
            },
        );
        check_given(
            &rt,
            i,
            b"\xa1\x05\xc1",
            row.0,
            Properties {
                expiration: number,
                ..Properties::default()
            },
        );
        check_given(
            &rt,
            i,
            b"\xa1\x06",
            row.0,
            Properties {
                max_subscribers: number,
                ..Properties::default()
            },
        );
        check_given(
            &rt,
            i,
            b"\xa1\x07",
            row.0,
            Properties {
                observer_check: number,
                ..Properties::default()
            },
        );
    }
}

// A text's head and bytes, and its bytes alone; they need not be UTF-8.
#[derive(Clone, Copy)]
struct Text(&'static [u8], &'static [u8]);

const TEXTS: [Text; 11] = [
    Text(b"\x60", b""),
    Text(b"\x61\x61", b"\x61"),
    Text(b"\x62\x61\x62", b"\x61\x62"),
    Text(b"\x78\x00", b""),
    Text(b"\x78\x01\x61", b"\x61"),
    Text(b"\x79\x00\x02\x61\x62", b"\x61\x62"),
    Text(b"\x7a\x00\x00\x00\x01\xff", b"\xff"),
    Text(b"\x7b\x00\x00\x00\x00\x00\x00\x00\x02\xc3\x28", b"\xc3\x28"),
    Text(
        b"\x77\x62\x62\x62\x62\x62\x62\x62\x62\x62\x62\x62\x62\x62\x62\x62\x62\x62\x62\x62\x62\x62\x62\x62",
        b"\x62\x62\x62\x62\x62\x62\x62\x62\x62\x62\x62\x62\x62\x62\x62\x62\x62\x62\x62\x62\x62\x62\x62",
    ),
    Text(
        b"\x78\x17\x62\x62\x62\x62\x62\x62\x62\x62\x62\x62\x62\x62\x62\x62\x62\x62\x62\x62\x62\x62\x62\x62\x62",
        b"\x62\x62\x62\x62\x62\x62\x62\x62\x62\x62\x62\x62\x62\x62\x62\x62\x62\x62\x62\x62\x62\x62\x62",
    ),
    Text(
        b"\x78\x18\x62\x62\x62\x62\x62\x62\x62\x62\x62\x62\x62\x62\x62\x62\x62\x62\x62\x62\x62\x62\x62\x62\x62\x62",
        b"\x62\x62\x62\x62\x62\x62\x62\x62\x62\x62\x62\x62\x62\x62\x62\x62\x62\x62\x62\x62\x62\x62\x62\x62",
    ),
];

#[test]
fn texts(rt: HostRuntime) {
    for (i, row) in TEXTS.iter().enumerate() {
        let text = Some(row.1);
        check_given(
            &rt,
            i,
            b"\xa1\x00",
            row.0,
            Properties {
                name: text,
                ..Properties::default()
            },
        );
        check_given(
            &rt,
            i,
            b"\xa1\x01",
            row.0,
            Properties {
                data_address: text,
                ..Properties::default()
            },
        );
        check_given(
            &rt,
            i,
            b"\xa1\x02",
            row.0,
            Properties {
                resource_type: text,
                ..Properties::default()
            },
        );
        check_given(
            &rt,
            i,
            b"\xa1\x04",
            row.0,
            Properties {
                topic_type: text,
                ..Properties::default()
            },
        );
    }
}

// All eight keys, rising, falling and mixed.
const ALL: [&[u8]; 3] = [
    b"\xa8\x00\x61\x61\x01\x61\x62\x02\x61\x63\x03\x18\x2a\x04\x61\x64\x05\xc1\x1a\x65\x54\x8a\x00\x06\x05\x07\x19\x0e\x10",
    b"\xa8\x07\x19\x0e\x10\x06\x05\x05\xc1\x1a\x65\x54\x8a\x00\x04\x61\x64\x03\x18\x2a\x02\x61\x63\x01\x61\x62\x00\x61\x61",
    b"\xa8\x05\xc1\x1a\x65\x54\x8a\x00\x00\x61\x61\x07\x19\x0e\x10\x02\x61\x63\x03\x18\x2a\x06\x05\x01\x61\x62\x04\x61\x64",
];

#[test]
fn all_keys(rt: HostRuntime) -> Result<(), Fail> {
    let wanted = Properties {
        name: Some(b"a"),
        data_address: Some(b"b"),
        resource_type: Some(b"c"),
        content_format: Some(42),
        topic_type: Some(b"d"),
        expiration: Some(1700039168),
        max_subscribers: Some(5),
        observer_check: Some(3600),
    };
    for (i, bytes) in ALL.iter().enumerate() {
        assert_eq!(rt; read(bytes)?, wanted, "row {i}");
    }
    Ok(())
}

// The bytes up to an end give a name of this length; one byte less is too few, and one more is too many.
fn check_name(rt: &impl Abort, bytes: &[u8], end: usize, len: usize) -> Result<(), Fail> {
    assert!(rt; 0 < end && end < bytes.len());
    let given = read(&bytes[0..end])?;
    assert_eq!(rt; given.name.ok_or("no name")?.len(), len);
    assert_eq!(rt; read(&bytes[0..end - 1]).err(), Some(Fault::Ends));
    assert_eq!(rt; read(&bytes[0..end + 1]).err(), Some(Fault::Trailing));
    Ok(())
}

fn put(rt: &impl Abort, start: &[u8], bytes: &mut [u8]) {
    assert!(rt; start.len() <= bytes.len());
    bytes[0..start.len()].copy_from_slice(start);
}

fn name_of(rt: &impl Abort, start: &[u8], len: usize) -> Result<(), Fail> {
    assert!(rt; start.len() <= 16 && len <= 65600);
    let mut bytes = [b'n'; 65664];
    put(rt, start, &mut bytes);
    check_name(rt, &bytes, start.len() + len, len)
}

#[test]
fn long_names(rt: HostRuntime) -> Result<(), Fail> {
    name_of(&rt, b"\xa1\x00\x77", 23)?;
    name_of(&rt, b"\xa1\x00\x78\x18", 24)?;
    name_of(&rt, b"\xa1\x00\x78\xff", 255)?;
    name_of(&rt, b"\xa1\x00\x79\x01\x00", 256)?;
    name_of(&rt, b"\xa1\x00\x79\x01\x01", 257)?;
    name_of(&rt, b"\xa1\x00\x79\xff\xff", 65535)?;
    name_of(&rt, b"\xa1\x00\x7a\x00\x01\x00\x00", 65536)?;
    name_of(&rt, b"\xa1\x00\x7b\x00\x00\x00\x00\x00\x01\x00\x01", 65537)
}
