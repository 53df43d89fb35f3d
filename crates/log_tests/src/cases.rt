// Calls of puts, sizes of memory, and the bytes that puts leave.
use protocol::Refusal;

// A put of properties: so many equal bytes.
#[derive(Clone, Copy)]
pub struct Put {
    pub handle: u32,
    pub len: usize,
    pub byte: u8,
    pub answer: Result<(), Refusal>,
}

// A memory, and how many keys it takes with the longest values, or why it is refused.
#[derive(Clone, Copy)]
pub struct Room {
    pub len: usize,
    pub keys: Result<u32, Refusal>,
}

const SHORT: Result<u32, Refusal> = Err(Refusal::ShortMemory);

pub static ROOMS: [Room; 9] = [
    Room {
        len: 0,
        keys: SHORT,
    },
    Room {
        len: 1,
        keys: SHORT,
    },
    Room {
        len: 583,
        keys: SHORT,
    },
    Room {
        len: 1165,
        keys: SHORT,
    },
    Room {
        len: 1166,
        keys: Ok(2),
    },
    Room {
        len: 1167,
        keys: Ok(2),
    },
    Room {
        len: 1748,
        keys: Ok(2),
    },
    Room {
        len: 1749,
        keys: Ok(3),
    },
    Room {
        len: 1750,
        keys: Ok(3),
    },
];

// Values at the limit; a refused one leaves the key as it was.
pub static LIMITS: [Put; 6] = [
    Put {
        handle: 1,
        len: 0,
        byte: 1,
        answer: Ok(()),
    },
    Put {
        handle: 2,
        len: 575,
        byte: 2,
        answer: Ok(()),
    },
    Put {
        handle: 1,
        len: 576,
        byte: 3,
        answer: Ok(()),
    },
    Put {
        handle: 1,
        len: 577,
        byte: 4,
        answer: Err(Refusal::BadStoreRequest),
    },
    Put {
        handle: 0,
        len: 1,
        byte: 4,
        answer: Err(Refusal::BadStoreRequest),
    },
    Put {
        handle: 3,
        len: 0,
        byte: 4,
        answer: Err(Refusal::StoreFull),
    },
];

// 10 entries of 107 bytes, of which two are live: 1,070 bytes.
pub static DEAD: [Put; 10] = [
    Put {
        handle: 1,
        len: 100,
        byte: 11,
        answer: Ok(()),
    },
    Put {
        handle: 1,
        len: 100,
        byte: 12,
        answer: Ok(()),
    },
    Put {
        handle: 1,
        len: 100,
        byte: 13,
        answer: Ok(()),
    },
    Put {
        handle: 1,
        len: 100,
        byte: 14,
        answer: Ok(()),
    },
    Put {
        handle: 2,
        len: 100,
        byte: 20,
        answer: Ok(()),
    },
    Put {
        handle: 2,
        len: 100,
        byte: 21,
        answer: Ok(()),
    },
    Put {
        handle: 1,
        len: 100,
        byte: 15,
        answer: Ok(()),
    },
    Put {
        handle: 1,
        len: 100,
        byte: 16,
        answer: Ok(()),
    },
    Put {
        handle: 1,
        len: 100,
        byte: 17,
        answer: Ok(()),
    },
    Put {
        handle: 1,
        len: 100,
        byte: 18,
        answer: Ok(()),
    },
];

// Two puts: a value of three bytes, and one of 256 under a handle of four bytes.
pub static TWO: [Put; 2] = [
    Put {
        handle: 1,
        len: 3,
        byte: 9,
        answer: Ok(()),
    },
    Put {
        handle: 0xFFFE_0102,
        len: 256,
        byte: 7,
        answer: Ok(()),
    },
];

// The log's first bytes after these: value and trailer, and the second value's first byte.
pub static TWO_FRONT: [u8; 11] = [9, 9, 9, 0, 0, 0, 1, 0, 0, 3, 7];

// The log's bytes from 265 on: the second value's last byte, its trailer, and memory that was not written.
pub static TWO_BACK: [u8; 9] = [7, 0xFF, 0xFE, 1, 2, 0, 1, 0, 0xEE];
