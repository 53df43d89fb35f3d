// The calls, and what every store answers to them.
use protocol::Refusal;

// One call of a store with its answer. A value of so many bytes is told by a seed, and a part is a number, since bad ones are refused.
#[derive(Clone, Copy)]
pub enum Step {
    // handle, part, length, seed, answer
    Put(u32, u8, usize, u8, Result<(), Refusal>),
    // handle, part, room in the buffer, seed, answer
    Get(u32, u8, usize, u8, Result<Option<usize>, Refusal>),
    // handle, part, answer
    Full(u32, u8, bool),
    // handle, part, answer
    Remove(u32, u8, Result<bool, Refusal>),
    // after, answer
    Next(u32, Option<u32>),
}

const BAD: Refusal = Refusal::BadStoreRequest;

const LAST: u32 = 4_294_967_295;

// On an empty store; at the end it is empty again.
pub static EDGES: [Step; 58] = [
    Step::Next(0, None),
    Step::Full(1, 0, false),
    Step::Get(1, 0, 576, 0, Ok(None)),
    Step::Remove(1, 0, Ok(false)),
    // values of every length up to the limit, the last over the one before
    Step::Put(1, 0, 0, 11, Ok(())),
    Step::Get(1, 0, 576, 11, Ok(Some(0))),
    Step::Put(1, 1, 1, 12, Ok(())),
    Step::Get(1, 1, 576, 12, Ok(Some(1))),
    Step::Put(2, 0, 255, 13, Ok(())),
    Step::Get(2, 0, 576, 13, Ok(Some(255))),
    Step::Put(2, 1, 256, 14, Ok(())),
    Step::Get(2, 1, 576, 14, Ok(Some(256))),
    Step::Put(7, 1, 257, 15, Ok(())),
    Step::Get(7, 1, 576, 15, Ok(Some(257))),
    Step::Put(9, 0, 575, 16, Ok(())),
    Step::Get(9, 0, 576, 16, Ok(Some(575))),
    Step::Put(LAST, 0, 576, 17, Ok(())),
    Step::Get(LAST, 0, 576, 17, Ok(Some(576))),
    Step::Put(9, 0, 577, 18, Err(BAD)),
    Step::Get(9, 0, 577, 16, Ok(Some(575))),
    Step::Put(9, 0, 2, 19, Ok(())),
    Step::Get(9, 0, 577, 19, Ok(Some(2))),
    // keys out of bounds
    Step::Put(0, 0, 1, 20, Err(BAD)),
    Step::Put(0, 1, 1, 20, Err(BAD)),
    Step::Put(1, 2, 1, 20, Err(BAD)),
    Step::Put(1, 255, 1, 20, Err(BAD)),
    Step::Get(0, 0, 576, 0, Err(BAD)),
    Step::Get(1, 2, 576, 0, Err(BAD)),
    Step::Remove(0, 0, Err(BAD)),
    Step::Remove(1, 2, Err(BAD)),
    Step::Full(0, 0, false),
    Step::Full(1, 2, false),
    // buffers
    Step::Get(2, 0, 0, 0, Err(BAD)),
    Step::Get(2, 0, 575, 0, Err(BAD)),
    Step::Get(5, 0, 575, 0, Err(BAD)),
    Step::Get(2, 0, 577, 13, Ok(Some(255))),
    // the earlier values stand
    Step::Get(1, 0, 576, 11, Ok(Some(0))),
    Step::Get(1, 1, 576, 12, Ok(Some(1))),
    Step::Get(2, 1, 576, 14, Ok(Some(256))),
    Step::Get(7, 1, 576, 15, Ok(Some(257))),
    // topics with properties: 1, 2, 9 and the last; 7 has data alone
    Step::Next(0, Some(1)),
    Step::Next(1, Some(2)),
    Step::Next(2, Some(9)),
    Step::Next(8, Some(9)),
    Step::Next(9, Some(LAST)),
    Step::Next(LAST, None),
    // a key is cleared, and the others stand
    Step::Remove(2, 0, Ok(true)),
    Step::Remove(2, 0, Ok(false)),
    Step::Get(2, 0, 576, 0, Ok(None)),
    Step::Get(2, 1, 576, 14, Ok(Some(256))),
    Step::Next(1, Some(9)),
    Step::Remove(1, 0, Ok(true)),
    Step::Remove(1, 1, Ok(true)),
    Step::Remove(2, 1, Ok(true)),
    Step::Remove(7, 1, Ok(true)),
    Step::Remove(9, 0, Ok(true)),
    Step::Remove(LAST, 0, Ok(true)),
    Step::Next(0, None),
];

// On a store that holds 64 keys, as many as it can: properties and data of the topics 1 to 32.
pub static FULL: [Step; 22] = [
    Step::Full(33, 0, true),
    Step::Full(1, 0, false),
    Step::Full(32, 1, false),
    Step::Full(0, 0, false),
    Step::Full(33, 2, false),
    Step::Put(33, 0, 1, 40, Err(Refusal::StoreFull)),
    Step::Get(33, 0, 576, 0, Ok(None)),
    // a bad request is told before a full store
    Step::Put(33, 2, 1, 40, Err(BAD)),
    Step::Put(33, 0, 577, 40, Err(BAD)),
    Step::Put(0, 0, 1, 40, Err(BAD)),
    // a key that is held is put again
    Step::Put(1, 0, 576, 41, Ok(())),
    Step::Get(1, 0, 576, 41, Ok(Some(576))),
    Step::Put(32, 1, 0, 42, Ok(())),
    Step::Get(32, 1, 576, 42, Ok(Some(0))),
    Step::Next(31, Some(32)),
    Step::Next(32, None),
    // room for one more
    Step::Remove(33, 0, Ok(false)),
    Step::Remove(5, 1, Ok(true)),
    Step::Full(33, 0, false),
    Step::Put(33, 0, 576, 43, Ok(())),
    Step::Full(5, 1, true),
    Step::Next(32, Some(33)),
];
