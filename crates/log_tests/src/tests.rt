// The tables, run on log stores in memory of several sizes.
use crate::cases::{DEAD, LIMITS, Put, ROOMS, TWO, TWO_BACK, TWO_FRONT};
use log_store::{LogStore, with_log};
use protocol::{Handle, Refusal};
use std::array;
use std::fmt::Display;
use std::process::Abort;
use store::{Key, Store, Work};

// What memory and buffers hold before.
const BEFORE: u8 = 0xEE;

// The key of a topic's properties.
fn key_of(handle: u32) -> Key {
    Key {
        handle: Handle(handle),
        part: 0,
    }
}

// Puts the front of the bytes.
fn put_front<S: Store>(
    rt: &impl Abort,
    store: &mut S,
    handle: u32,
    bytes: &[u8],
    len: usize,
    note: &impl Display,
) -> Result<(), Refusal> {
    assert!(rt; len <= bytes.len(), "{note}");
    store.put(key_of(handle), &bytes[0..len])
}

fn check_put<S: Store>(rt: &impl Abort, store: &mut S, put: Put, note: &impl Display) {
    let value = [put.byte; 577];
    assert_eq!(rt;
        put_front(rt, store, put.handle, &value, put.len, note),
        put.answer,
        "{note}"
    );
}

fn check_puts<S: Store>(rt: &impl Abort, store: &mut S, puts: &[Put]) {
    for (i, put) in puts.iter().enumerate() {
        check_put(rt, store, *put, &format_args!("put {i}"));
    }
}

// The key has a value of so many equal bytes, or none; behind it the buffer stays.
fn check_value<S: Store>(rt: &impl Abort, store: &S, handle: u32, value: Option<(usize, u8)>) {
    let mut out = [BEFORE; 576];
    assert_eq!(rt;
        store.get(key_of(handle), &mut out),
        Ok(value.map(|(len, _)| len))
    );
    let (len, byte) = value.unwrap_or((0, BEFORE));
    assert_eq!(rt;
        out,
        array::from_fn(|i| if i < len { byte } else { BEFORE })
    );
}

// How many keys take the longest values.
fn fill<S: Store>(store: &mut S) -> u32 {
    let value = [1; 576];
    for handle in 1..9 {
        if store.is_full_for(key_of(handle)) || store.put(key_of(handle), &value).is_err() {
            return handle - 1;
        }
    }
    8
}

// The bytes stand at a place of the memory.
fn check_bytes(rt: &impl Abort, memory: &[u8], from: usize, bytes: &[u8]) {
    assert!(rt; from <= memory.len());
    assert!(rt; bytes.len() <= memory.len() - from);
    assert_eq!(rt; &memory[from..from + bytes.len()], bytes);
}

// Equal bytes stand at a place of the memory.
fn check_run(rt: &impl Abort, memory: &[u8], from: usize, len: usize, byte: u8) {
    assert!(rt; from <= memory.len());
    assert!(rt; len <= memory.len() - from);
    let run = &memory[from..from + len];
    assert!(rt; run.iter().all(|b| *b == byte), "{run:?}");
}

// A log store in memory that is enough.
fn store_in<'a>(rt: &impl Abort, memory: &'a mut [u8]) -> LogStore<'a> {
    let len = memory.len();
    match LogStore::new(memory) {
        Ok(store) => store,
        Err(refusal) => panic!(rt; "{len} bytes: {refusal:?}"),
    }
}

// How many keys a store in the memory takes, or why the memory is refused.
fn keys_in(memory: &mut [u8]) -> Result<u32, Refusal> {
    let mut store = LogStore::new(memory)?;
    Ok(fill(&mut store))
}

// A store is empty whatever its memory holds, and takes as many keys as there is room for.
#[test]
fn rooms(rt: HostRuntime) {
    let mut memory = [BEFORE; 1750];
    let memory = &mut memory[..];
    for room in ROOMS.iter() {
        let len = room.len;
        assert!(rt; len <= memory.len());
        assert_eq!(rt; keys_in(&mut memory[0..len]), room.keys, "{len} bytes");
    }
}

// Tells how many keys the store takes.
#[derive(Drop)]
struct Filling;

impl Work for Filling {
    type Output = u32;

    ghost done = { λ _ _ _ _. Unit {0} };

    fn run<S: Store>(self, store: &mut S) -> u32 {
        fill(store)
    }
}

// Memory that is lent for the time of some work is refused where a store's is, and then stays as it was.
#[test]
fn rooms_lent(rt: HostRuntime) {
    let mut memory = [BEFORE; 1750];
    let memory = &mut memory[..];
    for room in ROOMS.iter() {
        let len = room.len;
        assert!(rt; len <= memory.len());
        let keys = with_log(&mut memory[0..len], Filling);
        assert_eq!(rt; keys, room.keys, "{len} bytes");
        if keys.is_err() {
            check_run(&rt, memory, 0, len, BEFORE);
        }
    }
}

#[test]
fn limits(rt: HostRuntime) {
    let mut memory = [BEFORE; 1166];
    let mut store = store_in(&rt, &mut memory);
    check_puts(&rt, &mut store, &LIMITS);
    check_value(&rt, &store, 1, Some((576, 3)));
    check_value(&rt, &store, 2, Some((575, 2)));
    check_value(&rt, &store, 3, None);
    assert!(rt; store.is_full_for(key_of(3)));
}

// The bytes of a log after two puts.
#[test]
fn bytes(rt: HostRuntime) {
    let mut memory = [BEFORE; 1166];
    let mut store = store_in(&rt, &mut memory);
    check_puts(&rt, &mut store, &TWO);
    drop(store);
    check_bytes(&rt, &memory, 0, &TWO_FRONT);
    check_bytes(&rt, &memory, 265, &TWO_BACK);
}

// The puts of `DEAD`, and one more under the first key.
fn check_last_put(rt: &impl Abort, store: &mut LogStore<'_>, len: usize) {
    check_puts(rt, store, &DEAD);
    let put = Put {
        handle: 1,
        len,
        byte: 19,
        answer: Ok(()),
    };
    check_put(rt, store, put, &"last put");
}

// A put that does not fit squeezes out what is dead, and the old entry of its key.
#[test]
fn squeeze(rt: HostRuntime) {
    let mut memory = [BEFORE; 1166];
    let mut store = store_in(&rt, &mut memory);
    check_last_put(&rt, &mut store, 90);
    check_value(&rt, &store, 1, Some((90, 19)));
    check_value(&rt, &store, 2, Some((100, 21)));
    drop(store);
    check_run(&rt, &memory, 0, 100, 21);
    check_bytes(&rt, &memory, 100, &[0, 0, 0, 2, 0, 0, 100]);
    check_run(&rt, &memory, 107, 90, 19);
    check_bytes(&rt, &memory, 197, &[0, 0, 0, 1, 0, 0, 90]);
}

// A put that just fits squeezes nothing out.
#[test]
fn exact_fit(rt: HostRuntime) {
    let mut memory = [BEFORE; 1166];
    let mut store = store_in(&rt, &mut memory);
    check_last_put(&rt, &mut store, 89);
    drop(store);
    check_run(&rt, &memory, 0, 100, 11);
    check_run(&rt, &memory, 1070, 89, 19);
    check_bytes(&rt, &memory, 1159, &[0, 0, 0, 1, 0, 0, 89]);
}

// A remove takes the dead entries of its key too; those of another key may stay.
#[test]
fn remove(rt: HostRuntime) {
    let mut memory = [BEFORE; 1166];
    let mut store = store_in(&rt, &mut memory);
    check_puts(&rt, &mut store, &DEAD);
    assert!(rt; store.next(Handle(0)).is_some());
    assert_eq!(rt; store.remove(key_of(1)), Ok(true));
    assert_eq!(rt; store.remove(key_of(1)), Ok(false));
    check_value(&rt, &store, 1, None);
    check_value(&rt, &store, 2, Some((100, 21)));
    assert!(rt; !store.is_full_for(key_of(3)));
    assert_eq!(rt; store.remove(key_of(2)), Ok(true));
    assert!(rt; store.next(Handle(0)).is_none());
    drop(store);
    check_run(&rt, &memory, 0, 100, 20);
}

// The byte of a turn.
fn byte_of(turn: u32) -> u8 {
    (turn % 251) as u8
}

#[test]
fn same_key_a_thousand_times(rt: HostRuntime) {
    let mut memory = [BEFORE; 1166];
    let mut store = store_in(&rt, &mut memory);
    for i in 0u32..1000 {
        let put = Put {
            handle: 1,
            len: 576,
            byte: byte_of(i),
            answer: Ok(()),
        };
        check_put(&rt, &mut store, put, &format_args!("turn {i}"));
    }
    check_value(&rt, &store, 1, Some((576, 246)));
}
