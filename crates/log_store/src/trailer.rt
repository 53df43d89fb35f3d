// The trailer of an entry: written after the entry's value, and read from there.
ghost use Rattle.std.specs.Prelude.{◌≡◌};
ghost use Rattle.log_store.specs.Format.{key_at, len_at, trailer as trailer_of};

use protocol::Handle;
use store::Key;

// Bytes of a trailer.
pub const TRAILER: usize = 7;

// A key, and the length of the value that stands before.
#[derive(Clone, Copy)]
pub struct Trailer {
    pub key: Key,
    // a number, as the bytes have it: the value stands before them
    pub len: usize,
}

// The bytes of a trailer.
pub(crate) fn write(key: Key, len: u16) -> [u8; TRAILER]
    ensures { result ≡ trailer_of key len }
{
    let [a, b, c, d] = key.handle.0.to_be_bytes();
    let [high, low] = len.to_be_bytes();
    [a, b, c, d, key.part, high, low]
}

// What a trailer's bytes say.
pub(crate) fn read(trailer: &[u8; TRAILER]) -> Trailer
    ensures key { result.key ≡ key_at trailer.now 7 }
    ensures len { result.len ≡ len_at trailer.now 7 }
{
    let [a, b, c, d, part, high, low] = *trailer;
    Trailer {
        key: Key {
            handle: Handle(u32::from_be_bytes([a, b, c, d])),
            part,
        },
        len: usize::from(u16::from_be_bytes([high, low])),
    }
}
