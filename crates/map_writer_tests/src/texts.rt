// Texts at every limit of a head, under each key that has one.
use crate::helpers::{BEFORE, fits};
use maps::Properties;
use std::process::Abort;

// The longest text.
const LONGEST: usize = 65536;

// Room for a map with the longest text, and one byte more.
const ROOM: usize = 65544;

// The length of a text, and its head.
#[derive(Clone, Copy)]
struct Row(usize, &'static [u8]);

const ROWS: [Row; 10] = [
    Row(0, b"\x60"),
    Row(1, b"\x61"),
    Row(23, b"\x77"),
    Row(24, b"\x78\x18"),
    Row(255, b"\x78\xff"),
    Row(256, b"\x79\x01\x00"),
    Row(257, b"\x79\x01\x01"),
    Row(65534, b"\x79\xff\xfe"),
    Row(65535, b"\x79\xff\xff"),
    Row(65536, b"\x7a\x00\x01\x00\x00"),
];

// A map with one text has a head, the key, the text's head and the text. The key is the byte that must stand there.
fn framed(rt: &impl Abort, row: usize, p: &Properties<'_>, key: u8, head: &[u8], text: &[u8]) {
    let mut out = [BEFORE; ROOM];
    assert!(rt; head.len() <= 9 && text.len() <= LONGEST, "row {row}");
    let start = 2 + head.len();
    let end = start + text.len();
    assert!(rt; end < ROOM, "row {row}");
    fits(rt, row, p, end, &mut out);
    assert_eq!(rt; out[0], 0xA1, "row {row}");
    assert_eq!(rt; out[1], key, "row {row}");
    assert_eq!(rt; &out[2..start], head, "row {row}");
    assert_eq!(rt; &out[start..end], text, "row {row}");
}

fn each(rt: &impl Abort, row: usize, text: &[u8], head: &[u8]) {
    let name = Properties {
        name: Some(text),
        ..Properties::default()
    };
    framed(rt, row, &name, 0, head, text);
    let address = Properties {
        data_address: Some(text),
        ..Properties::default()
    };
    framed(rt, row, &address, 1, head, text);
    let resource = Properties {
        resource_type: Some(text),
        ..Properties::default()
    };
    framed(rt, row, &resource, 2, head, text);
    let topic = Properties {
        topic_type: Some(text),
        ..Properties::default()
    };
    framed(rt, row, &topic, 4, head, text);
}

#[test]
fn texts(rt: HostRuntime) {
    let text = [b'x'; LONGEST];
    for (i, row) in ROWS.iter().enumerate() {
        assert!(rt; row.0 <= LONGEST, "row {i}");
        each(&rt, i, &text[0..row.0], row.1);
    }
}
