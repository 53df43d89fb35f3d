// What the tests of the writer share.
use map_writer::{write, written_len};
use maps::{Properties, read};
use std::process::Abort;

// What a buffer holds before a map is written to it.
pub(crate) const BEFORE: u8 = 0xEE;

// Each byte is as it was before; in a message stands the row of the table that is checked.
pub(crate) fn untouched(rt: &impl Abort, row: usize, bytes: &[u8]) {
    assert!(rt; bytes.iter().all(|b| *b == BEFORE), "row {row}");
}

// The map fits a buffer of its length and no shorter one, and is read back.
pub(crate) fn fits(rt: &impl Abort, row: usize, p: &Properties<'_>, len: usize, out: &mut [u8]) {
    assert!(rt; 0 < len && len < out.len(), "row {row}");
    assert_eq!(rt; written_len(p), Some(len), "row {row}");
    assert_eq!(rt; write(p, &mut out[0..len - 1]), None, "row {row}");
    untouched(rt, row, out);
    assert_eq!(rt; write(p, &mut out[0..len]), Some(len), "row {row}");
    untouched(rt, row, &out[len..]);
    assert_eq!(rt; read(&out[0..len]), Ok(*p), "row {row}");
}

// The map has these bytes.
pub(crate) fn has_bytes(rt: &impl Abort, row: usize, p: &Properties<'_>, bytes: &[u8]) {
    let mut out = [BEFORE; 64];
    fits(rt, row, p, bytes.len(), &mut out);
    let mut roomy = [BEFORE; 64];
    let len = bytes.len();
    assert!(rt; len <= 64, "row {row}");
    assert_eq!(rt; write(p, &mut roomy), Some(len), "row {row}");
    assert_eq!(rt; &roomy[0..len], bytes, "row {row}");
    untouched(rt, row, &roomy[len..]);
}
