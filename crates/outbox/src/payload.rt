// A payload of at most 256 bytes in a place of its own.
ghost use Rattle.std.specs.Prelude.{◌≡◌, ◌≤◌, length};

use crate::limits::MAX_PAYLOAD;

mod bytes;

// An array with a length beside it: there is no heap, and an `ArrayVec` is not `Copy`, as a payload is for the slots that hosts lend.
#[derive(Clone, Copy)]
pub struct Payload {
    bytes: [u8; MAX_PAYLOAD],
    len: usize,
    ghost place: { length bytes ≡ 256 },
    ghost short: { len ≤ 256 },
}
