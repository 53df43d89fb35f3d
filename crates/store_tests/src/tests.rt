// The tables of calls, run on each kind of store.
use crate::cases::{EDGES, FULL, Step};
use log_store::with_log;
use protocol::{Handle, Refusal};
use std::array;
use std::fmt::Display;
use std::process::Abort;
use store::{Key, Store, Work};
use table_store::TableStore;

// What a buffer holds before a get.
const BEFORE: u8 = 0xEE;

// The byte at a place of the value that a seed tells.
fn byte_at(seed: u8, i: usize) -> u8 {
    (i % 251) as u8 ^ seed
}

// A part above 1 is refused, so it is a number here too.
fn key_of(handle: u32, part: u8) -> Key {
    Key {
        handle: Handle(handle),
        part,
    }
}

// A store under test, and the handle by which a check that fails ends the test.
#[derive(Drop)]
struct Trial<'a, R, S> {
    rt: &'a R,
    store: &'a mut S,
}

impl<R: Abort, S: Store> Trial<'_, R, S> {
    // Puts the seed's value.
    fn put(&mut self, key: Key, len: usize, seed: u8, note: &impl Display) -> Result<(), Refusal> {
        let bytes: [u8; 577] = array::from_fn(|i| byte_at(seed, i));
        assert!(self.rt; len <= bytes.len(), "{note}");
        self.store.put(key, &bytes[..len])
    }

    // Gets into a buffer with room for so many bytes: in front it has the seed's value, and behind what it had before.
    fn check_get(
        &self,
        key: Key,
        room: usize,
        seed: u8,
        answer: Result<Option<usize>, Refusal>,
        note: &impl Display,
    ) {
        let mut out = [BEFORE; 577];
        assert!(self.rt; room <= out.len(), "{note}");
        assert_eq!(self.rt; self.store.get(key, &mut out[..room]), answer, "{note}");
        let len = answer.ok().flatten().unwrap_or(0);
        let expected: [u8; 577] = array::from_fn(|i| if i < len {
            byte_at(seed, i)
        } else {
            BEFORE
        });
        assert_eq!(self.rt; out, expected, "{note}");
    }

    fn check_step(&mut self, step: Step, note: &impl Display) {
        match step {
            Step::Put(handle, part, len, seed, answer) => {
                assert_eq!(self.rt;
                    self.put(key_of(handle, part), len, seed, note),
                    answer,
                    "{note}"
                );
            }
            Step::Get(handle, part, room, seed, answer) => {
                self.check_get(key_of(handle, part), room, seed, answer, note);
            }
            Step::Full(handle, part, answer) => {
                assert_eq!(self.rt;
                    self.store.is_full_for(key_of(handle, part)),
                    answer,
                    "{note}"
                );
            }
            Step::Remove(handle, part, answer) => {
                assert_eq!(self.rt; self.store.remove(key_of(handle, part)), answer, "{note}");
            }
            Step::Next(after, answer) => {
                assert_eq!(self.rt;
                    self.store.next(Handle(after)).map(|handle| handle.0),
                    answer,
                    "{note}"
                );
            }
        }
    }

    fn check_steps(&mut self, steps: &[Step], note: &str) {
        for (i, step) in steps.iter().enumerate() {
            self.check_step(*step, &format_args!("{note}: step {i}"));
        }
    }

    // Puts properties and data of the topics 1 to 32 into an empty store.
    fn fill(&mut self) {
        for handle in 1..33 {
            assert!(self.rt; !self.store.is_full_for(key_of(handle, 0)));
            assert_eq!(self.rt; self.put(key_of(handle, 0), 3, 50, &handle), Ok(()));
            assert_eq!(self.rt; self.put(key_of(handle, 1), 4, 51, &handle), Ok(()));
        }
    }
}

// Every table, on a new store that can hold 64 keys.
fn check_store<S: Store>(rt: &impl Abort, store: &mut S) {
    let mut trial = Trial { rt, store };
    trial.check_steps(&EDGES, "edges");
    trial.fill();
    trial.check_steps(&FULL, "full");
}

#[test]
fn table_store(rt: HostRuntime) {
    check_store(&rt, &mut TableStore::new());
}

#[test]
fn default_table_store(rt: HostRuntime) {
    check_store(&rt, &mut TableStore::default());
}

// The whole table, as work on any store.
#[derive(Drop)]
struct Table<'a, R> {
    rt: &'a R,
}

impl<R: Abort> Work for Table<'_, R> {
    type Output = ();

    ghost done = { λ _ _ _ _. Unit {0} };

    fn run<S: Store>(self, store: &mut S) {
        check_store(self.rt, store);
    }
}

// A log with room for as many keys as the table has.
#[test]
fn log_store(rt: HostRuntime) {
    let mut memory = [BEFORE; 37312];
    assert_eq!(rt; with_log(&mut memory, Table { rt: &rt }), Ok(()));
}
