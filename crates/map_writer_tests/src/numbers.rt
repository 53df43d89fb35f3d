// Numbers at every limit of a head, under each key that has one.
use crate::helpers::has_bytes;
use maps::Properties;

// A number, and the map with it as content format, as date of expiration, as max-subscribers and as observer check.
#[derive(Clone, Copy)]
struct Row(
    u64,
    &'static [u8],
    &'static [u8],
    &'static [u8],
    &'static [u8],
);

const ROWS: [Row; 12] = [
    Row(
        0,
        b"\xa1\x03\x00",
        b"\xa1\x05\xc1\x00",
        b"\xa1\x06\x00",
        b"\xa1\x07\x00",
    ),
    Row(
        1,
        b"\xa1\x03\x01",
        b"\xa1\x05\xc1\x01",
        b"\xa1\x06\x01",
        b"\xa1\x07\x01",
    ),
    Row(
        23,
        b"\xa1\x03\x17",
        b"\xa1\x05\xc1\x17",
        b"\xa1\x06\x17",
        b"\xa1\x07\x17",
    ),
    Row(
        24,
        b"\xa1\x03\x18\x18",
        b"\xa1\x05\xc1\x18\x18",
        b"\xa1\x06\x18\x18",
        b"\xa1\x07\x18\x18",
    ),
    Row(
        255,
        b"\xa1\x03\x18\xff",
        b"\xa1\x05\xc1\x18\xff",
        b"\xa1\x06\x18\xff",
        b"\xa1\x07\x18\xff",
    ),
    Row(
        256,
        b"\xa1\x03\x19\x01\x00",
        b"\xa1\x05\xc1\x19\x01\x00",
        b"\xa1\x06\x19\x01\x00",
        b"\xa1\x07\x19\x01\x00",
    ),
    Row(
        257,
        b"\xa1\x03\x19\x01\x01",
        b"\xa1\x05\xc1\x19\x01\x01",
        b"\xa1\x06\x19\x01\x01",
        b"\xa1\x07\x19\x01\x01",
    ),
    Row(
        65535,
        b"\xa1\x03\x19\xff\xff",
        b"\xa1\x05\xc1\x19\xff\xff",
        b"\xa1\x06\x19\xff\xff",
        b"\xa1\x07\x19\xff\xff",
    ),
    Row(
        65536,
        b"\xa1\x03\x1a\x00\x01\x00\x00",
        b"\xa1\x05\xc1\x1a\x00\x01\x00\x00",
        b"\xa1\x06\x1a\x00\x01\x00\x00",
        b"\xa1\x07\x1a\x00\x01\x00\x00",
    ),
    Row(
        4294967295,
        b"\xa1\x03\x1a\xff\xff\xff\xff",
        b"\xa1\x05\xc1\x1a\xff\xff\xff\xff",
        b"\xa1\x06\x1a\xff\xff\xff\xff",
        b"\xa1\x07\x1a\xff\xff\xff\xff",
    ),
    Row(
        4294967296,
        b"\xa1\x03\x1b\x00\x00\x00\x01\x00\x00\x00\x00",
        b"\xa1\x05\xc1\x1b\x00\x00\x00\x01\x00\x00\x00\x00",
        b"\xa1\x06\x1b\x00\x00\x00\x01\x00\x00\x00\x00",
        b"\xa1\x07\x1b\x00\x00\x00\x01\x00\x00\x00\x00",
    ),
    Row(
        18446744073709551615,
        b"\xa1\x03\x1b\xff\xff\xff\xff\xff\xff\xff\xff",
        b"\xa1\x05\xc1\x1b\xff\xff\xff\xff\xff\xff\xff\xff",
        b"\xa1\x06\x1b\xff\xff\xff\xff\xff\xff\xff\xff",
        b"\xa1\x07\x1b\xff\xff\xff\xff\xff\xff\xff\xff",
    ),
];

#[test]
fn content_formats(rt: HostRuntime) {
    for (i, row) in ROWS.iter().enumerate() {
        let p = Properties {
            content_format: Some(row.0),
            ..Properties::default()
        };
        has_bytes(&rt, i, &p, row.1);
    }
}

#[test]
fn expirations(rt: HostRuntime) {
    for (i, row) in ROWS.iter().enumerate() {
        let p = Properties {
            expiration: Some(row.0),
            ..Properties::default()
        };
        has_bytes(&rt, i, &p, row.2);
    }
}

#[test]
fn most_subscribers(rt: HostRuntime) {
    for (i, row) in ROWS.iter().enumerate() {
        let p = Properties {
            max_subscribers: Some(row.0),
            ..Properties::default()
        };
        has_bytes(&rt, i, &p, row.3);
    }
}

#[test]
fn observer_checks(rt: HostRuntime) {
    for (i, row) in ROWS.iter().enumerate() {
        let p = Properties {
            observer_check: Some(row.0),
            ..Properties::default()
        };
        has_bytes(&rt, i, &p, row.4);
    }
}
