// What is wrong with a map, at every place: one table for each kind of item.
use maps::read;
use protocol::Fault;
use std::process::Abort;

// The bytes of a map, and their fault.
#[derive(Clone, Copy)]
struct Row(&'static [u8], Fault);

// Each row's bytes have the row's fault.
fn all_told(rt: &impl Abort, rows: &[Row]) {
    for (i, row) in rows.iter().enumerate() {
        assert_eq!(rt; read(row.0), Err(row.1), "row {i}");
    }
}

// The head of the map: missing, cut short before its type is looked at, of another type, of no definite length.
const MAP_HEADS: [Row; 32] = [
    Row(b"", Fault::Ends),
    Row(b"\xb8", Fault::Ends),
    Row(b"\xb9\x00", Fault::Ends),
    Row(b"\xba\x00\x00\x00", Fault::Ends),
    Row(b"\xbb\x00\x00\x00\x00\x00\x00\x00", Fault::Ends),
    Row(b"\x18", Fault::Ends),
    Row(b"\x39\x00", Fault::Ends),
    Row(b"\x5a\x00\x00\x00", Fault::Ends),
    Row(b"\x7b\x00\x00\x00\x00\x00\x00\x00", Fault::Ends),
    Row(b"\x98", Fault::Ends),
    Row(b"\xd9\x00", Fault::Ends),
    Row(b"\xfa\x00\x00\x00", Fault::Ends),
    Row(b"\x00", Fault::WrongType),
    Row(b"\x20", Fault::WrongType),
    Row(b"\x40", Fault::WrongType),
    Row(b"\x60", Fault::WrongType),
    Row(b"\x80", Fault::WrongType),
    Row(b"\xc1\xa0", Fault::WrongType),
    Row(b"\xf4", Fault::WrongType),
    Row(b"\x18\x00", Fault::WrongType),
    Row(b"\x1b\x00\x00\x00\x00\x00\x00\x00\x00", Fault::WrongType),
    Row(b"\xbc", Fault::WrongType),
    Row(b"\xbd", Fault::WrongType),
    Row(b"\xbe", Fault::WrongType),
    Row(b"\xbf\xff", Fault::WrongType),
    Row(b"\x1c", Fault::WrongType),
    Row(b"\x3d", Fault::WrongType),
    Row(b"\x5e", Fault::WrongType),
    Row(b"\x7f", Fault::WrongType),
    Row(b"\x9f", Fault::WrongType),
    Row(b"\xdf", Fault::WrongType),
    Row(b"\xff", Fault::WrongType),
];

#[test]
fn map_heads(rt: HostRuntime) {
    all_told(&rt, &MAP_HEADS);
}

// More entries declared than there are.
const COUNTS: [Row; 9] = [
    Row(b"\xa1", Fault::Ends),
    Row(b"\xb7", Fault::Ends),
    Row(b"\xb8\x18", Fault::Ends),
    Row(b"\xba\xff\xff\xff\xff", Fault::Ends),
    Row(b"\xbb\xff\xff\xff\xff\xff\xff\xff\xff", Fault::Ends),
    Row(b"\xbb\xff\xff\xff\xff\xff\xff\xff\xff\x06\x01", Fault::Ends),
    Row(b"\xa2\x06\x01", Fault::Ends),
    Row(b"\xa3\x06\x01\x07\x02", Fault::Ends),
    Row(b"\xb9\x01\x00\x06\x01", Fault::Ends),
];

#[test]
fn counts(rt: HostRuntime) {
    all_told(&rt, &COUNTS);
}

// Keys: cut short, of another type, above 7.
const KEYS: [Row; 33] = [
    Row(b"\xa1\x18", Fault::Ends),
    Row(b"\xa1\x19\x00", Fault::Ends),
    Row(b"\xa1\x1a\x00\x00\x00", Fault::Ends),
    Row(b"\xa1\x1b\x00\x00\x00\x00\x00\x00\x00", Fault::Ends),
    Row(b"\xa1\x38", Fault::Ends),
    Row(b"\xa1\x78", Fault::Ends),
    Row(b"\xa2\x06\x01\xf9\x00", Fault::Ends),
    Row(b"\xa1\x20\x00", Fault::WrongType),
    Row(b"\xa1\x40\x00", Fault::WrongType),
    Row(b"\xa1\x60\x00", Fault::WrongType),
    Row(b"\xa1\x80\x00", Fault::WrongType),
    Row(b"\xa1\xa0\x00", Fault::WrongType),
    Row(b"\xa1\xc1\x00", Fault::WrongType),
    Row(b"\xa1\xf5\x00", Fault::WrongType),
    Row(b"\xa1\x38\x08", Fault::WrongType),
    Row(b"\xa1\x1c\x00", Fault::WrongType),
    Row(b"\xa1\x1d", Fault::WrongType),
    Row(b"\xa1\x1e", Fault::WrongType),
    Row(b"\xa1\x1f", Fault::WrongType),
    Row(b"\xa1\x3f", Fault::WrongType),
    Row(b"\xa1\xff", Fault::WrongType),
    Row(b"\xa1\x08\x00", Fault::UnknownKey),
    Row(b"\xa1\x08", Fault::UnknownKey),
    Row(b"\xa1\x08\xff", Fault::UnknownKey),
    Row(b"\xa1\x17\x00", Fault::UnknownKey),
    Row(b"\xa1\x18\x08\x00", Fault::UnknownKey),
    Row(b"\xa1\x18\xff", Fault::UnknownKey),
    Row(b"\xa1\x19\x01\x00", Fault::UnknownKey),
    Row(b"\xa1\x1a\x00\x00\x00\x08", Fault::UnknownKey),
    Row(
        b"\xa1\x1b\x00\x00\x00\x00\x00\x00\x00\x08",
        Fault::UnknownKey,
    ),
    Row(
        b"\xa1\x1b\xff\xff\xff\xff\xff\xff\xff\xff",
        Fault::UnknownKey,
    ),
    Row(
        b"\xa1\x1b\x00\x00\x00\x01\x00\x00\x00\x06\x00",
        Fault::UnknownKey,
    ),
    Row(b"\xa2\x06\x01\x08\x00", Fault::UnknownKey),
];

#[test]
fn keys(rt: HostRuntime) {
    all_told(&rt, &KEYS);
}

// Keys that stand in the map already, told before their values are looked at.
const REPEATS: [Row; 21] = [
    Row(b"\xa2\x00\x60\x00\x60", Fault::RepeatedKey),
    Row(b"\xa2\x01\x60\x01\x60", Fault::RepeatedKey),
    Row(b"\xa2\x02\x60\x02\x60", Fault::RepeatedKey),
    Row(b"\xa2\x03\x00\x03\x00", Fault::RepeatedKey),
    Row(b"\xa2\x04\x60\x04\x60", Fault::RepeatedKey),
    Row(b"\xa2\x05\xc1\x00\x05\xc1\x00", Fault::RepeatedKey),
    Row(b"\xa2\x06\x01\x06\x02", Fault::RepeatedKey),
    Row(b"\xa2\x07\x00\x07\x00", Fault::RepeatedKey),
    Row(b"\xa2\x06\x01\x06", Fault::RepeatedKey),
    Row(b"\xa2\x06\x01\x06\xff", Fault::RepeatedKey),
    Row(b"\xa2\x06\x01\x06\x60", Fault::RepeatedKey),
    Row(b"\xa2\x06\x01\x06\x18", Fault::RepeatedKey),
    Row(b"\xa2\x00\x60\x00\x61", Fault::RepeatedKey),
    Row(b"\xa2\x06\x01\x18\x06", Fault::RepeatedKey),
    Row(b"\xa2\x06\x01\x19\x00\x06", Fault::RepeatedKey),
    Row(b"\xa2\x06\x01\x1a\x00\x00\x00\x06", Fault::RepeatedKey),
    Row(
        b"\xa2\x06\x01\x1b\x00\x00\x00\x00\x00\x00\x00\x06",
        Fault::RepeatedKey,
    ),
    Row(b"\xa2\x18\x06\x01\x06", Fault::RepeatedKey),
    Row(b"\xa3\x06\x01\x07\x02\x06\x03", Fault::RepeatedKey),
    Row(b"\xa3\x07\x00\x06\x01\x07", Fault::RepeatedKey),
    Row(
        b"\xb7\x00\x60\x01\x60\x02\x60\x03\x00\x04\x60\x05\xc1\x00\x06\x00\x07\x00\x00",
        Fault::RepeatedKey,
    ),
];

#[test]
fn repeats(rt: HostRuntime) {
    all_told(&rt, &REPEATS);
}

// Values that must be unsigned numbers.
const NUMBERS: [Row; 26] = [
    Row(b"\xa1\x03", Fault::Ends),
    Row(b"\xa1\x06", Fault::Ends),
    Row(b"\xa1\x07", Fault::Ends),
    Row(b"\xa1\x03\x18", Fault::Ends),
    Row(b"\xa1\x06\x19\x00", Fault::Ends),
    Row(b"\xa1\x07\x1a\x00\x00\x00", Fault::Ends),
    Row(b"\xa1\x03\x1b\x00\x00\x00\x00\x00\x00\x00", Fault::Ends),
    Row(b"\xa1\x03\x38", Fault::Ends),
    Row(b"\xa1\x06\x78", Fault::Ends),
    Row(b"\xa1\x07\xfb\x00", Fault::Ends),
    Row(b"\xa1\x03\x20", Fault::WrongType),
    Row(b"\xa1\x03\x40", Fault::WrongType),
    Row(b"\xa1\x03\x60", Fault::WrongType),
    Row(b"\xa1\x06\x80", Fault::WrongType),
    Row(b"\xa1\x06\xa0", Fault::WrongType),
    Row(b"\xa1\x06\xc1\x00", Fault::WrongType),
    Row(b"\xa1\x06\xc2\x40", Fault::WrongType),
    Row(b"\xa1\x07\xf4", Fault::WrongType),
    Row(b"\xa1\x07\xf6", Fault::WrongType),
    Row(b"\xa1\x07\x38\x00", Fault::WrongType),
    Row(b"\xa1\x07\xfa\x00\x00\x00\x00", Fault::WrongType),
    Row(b"\xa1\x03\x1c", Fault::WrongType),
    Row(b"\xa1\x06\x1d", Fault::WrongType),
    Row(b"\xa1\x07\x1e", Fault::WrongType),
    Row(b"\xa1\x07\x1f", Fault::WrongType),
    Row(b"\xa1\x06\xff", Fault::WrongType),
];

#[test]
fn numbers(rt: HostRuntime) {
    all_told(&rt, &NUMBERS);
}

// Values that must be texts.
const TEXTS: [Row; 32] = [
    Row(b"\xa1\x00", Fault::Ends),
    Row(b"\xa1\x01", Fault::Ends),
    Row(b"\xa1\x02", Fault::Ends),
    Row(b"\xa1\x04", Fault::Ends),
    Row(b"\xa1\x00\x78", Fault::Ends),
    Row(b"\xa1\x01\x79\x00", Fault::Ends),
    Row(b"\xa1\x02\x7a\x00\x00\x00", Fault::Ends),
    Row(b"\xa1\x04\x7b\x00\x00\x00\x00\x00\x00\x00", Fault::Ends),
    Row(b"\xa1\x00\x18", Fault::Ends),
    Row(b"\xa1\x00\x58", Fault::Ends),
    Row(b"\xa1\x00\x61", Fault::Ends),
    Row(b"\xa1\x01\x62\x61", Fault::Ends),
    Row(b"\xa1\x02\x77\x61", Fault::Ends),
    Row(b"\xa1\x04\x78\x18\x61", Fault::Ends),
    Row(b"\xa1\x00\x79\x01\x00\x61", Fault::Ends),
    Row(b"\xa1\x00\x7a\xff\xff\xff\xff\x61", Fault::Ends),
    Row(
        b"\xa1\x00\x7b\xff\xff\xff\xff\xff\xff\xff\xff\x61",
        Fault::Ends,
    ),
    Row(b"\xa1\x00\x7b\x7f\xff\xff\xff\xff\xff\xff\xff", Fault::Ends),
    Row(b"\xa1\x00\x00", Fault::WrongType),
    Row(b"\xa1\x00\x20", Fault::WrongType),
    Row(b"\xa1\x00\x41\x61", Fault::WrongType),
    Row(b"\xa1\x01\x41\x61", Fault::WrongType),
    Row(b"\xa1\x02\x80", Fault::WrongType),
    Row(b"\xa1\x04\xa0", Fault::WrongType),
    Row(b"\xa1\x00\xc1\x61\x61", Fault::WrongType),
    Row(b"\xa1\x04\xf6", Fault::WrongType),
    Row(b"\xa1\x00\x58\x01\x61", Fault::WrongType),
    Row(b"\xa1\x00\x41", Fault::WrongType),
    Row(b"\xa1\x00\x7c", Fault::WrongType),
    Row(b"\xa1\x01\x7d", Fault::WrongType),
    Row(b"\xa1\x02\x7e", Fault::WrongType),
    Row(b"\xa1\x04\x7f\x61\x61\xff", Fault::WrongType),
];

#[test]
fn texts(rt: HostRuntime) {
    all_told(&rt, &TEXTS);
}

// The expiration: a tag, which is an item of its own, and then an unsigned number.
const DATES: [Row; 33] = [
    Row(b"\xa1\x05", Fault::Ends),
    Row(b"\xa1\x05\xd8", Fault::Ends),
    Row(b"\xa1\x05\xd9\x00", Fault::Ends),
    Row(b"\xa1\x05\xda\x00\x00\x00", Fault::Ends),
    Row(b"\xa1\x05\xdb\x00\x00\x00\x00\x00\x00\x00", Fault::Ends),
    Row(b"\xa1\x05\x18", Fault::Ends),
    Row(b"\xa1\x05\x00", Fault::WrongType),
    Row(b"\xa1\x05\x60", Fault::WrongType),
    Row(b"\xa1\x05\x01", Fault::WrongType),
    Row(b"\xa1\x05\xa1", Fault::WrongType),
    Row(b"\xa1\x05\xe1\x00", Fault::WrongType),
    Row(b"\xa1\x05\xc0", Fault::WrongType),
    Row(b"\xa1\x05\xc0\x00", Fault::WrongType),
    Row(b"\xa1\x05\xc2", Fault::WrongType),
    Row(b"\xa1\x05\xd8\x02", Fault::WrongType),
    Row(b"\xa1\x05\xd8\x18\x00", Fault::WrongType),
    Row(b"\xa1\x05\xd9\x01\x01\x00", Fault::WrongType),
    Row(
        b"\xa1\x05\xdb\x00\x00\x00\x01\x00\x00\x00\x01\x00",
        Fault::WrongType,
    ),
    Row(b"\xa1\x05\xdc", Fault::WrongType),
    Row(b"\xa1\x05\xdd", Fault::WrongType),
    Row(b"\xa1\x05\xde", Fault::WrongType),
    Row(b"\xa1\x05\xdf\x01", Fault::WrongType),
    Row(b"\xa1\x05\xc1", Fault::Ends),
    Row(b"\xa1\x05\xc1\x18", Fault::Ends),
    Row(b"\xa1\x05\xc1\x1b\x00\x00\x00\x00\x00\x00\x00", Fault::Ends),
    Row(b"\xa1\x05\xc1\x38", Fault::Ends),
    Row(b"\xa1\x05\xd8\x01", Fault::Ends),
    Row(b"\xa1\x05\xc1\x20", Fault::WrongType),
    Row(b"\xa1\x05\xc1\x60", Fault::WrongType),
    Row(b"\xa1\x05\xc1\xc1\x00", Fault::WrongType),
    Row(b"\xa1\x05\xc1\x1c", Fault::WrongType),
    Row(b"\xa1\x05\xc1\x1f", Fault::WrongType),
    Row(
        b"\xa1\x05\xc1\xfb\x41\xd4\x52\xd9\xe8\x00\x00\x00",
        Fault::WrongType,
    ),
];

#[test]
fn dates(rt: HostRuntime) {
    all_told(&rt, &DATES);
}

// Bytes behind the map.
const TRAILING: [Row; 11] = [
    Row(b"\xa0\x00", Fault::Trailing),
    Row(b"\xa0\xa0", Fault::Trailing),
    Row(b"\xa0\xff", Fault::Trailing),
    Row(b"\xa0\x18", Fault::Trailing),
    Row(b"\xb8\x00\x00", Fault::Trailing),
    Row(b"\xbb\x00\x00\x00\x00\x00\x00\x00\x00\x00", Fault::Trailing),
    Row(b"\xa1\x06\x01\x00", Fault::Trailing),
    Row(b"\xa1\x00\x60\x60", Fault::Trailing),
    Row(b"\xa1\x00\x61\x61\x61", Fault::Trailing),
    Row(b"\xa1\x05\xc1\x00\xc1", Fault::Trailing),
    Row(b"\xa2\x06\x01\x07\x02\x06\x03", Fault::Trailing),
];

#[test]
fn trailing(rt: HostRuntime) {
    all_told(&rt, &TRAILING);
}
