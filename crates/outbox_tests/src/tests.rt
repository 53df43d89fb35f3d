// The checks on each outbox that ships, and what each has of its own.
use crate::checks::*;
use clients::Session;
use outbox::{Payload, Ring};
use protocol::Refusal;
use shared_outbox::{Entry, Place, Shared};
use slot_outbox::{Slot, Slots};
use std::test::Fail;

fn slot() -> Result<Slot<Session>, Fail> {
    Ok(Slot {
        subscriber: subscriber(0)?,
        content: content(0),
        payload: Payload::empty(),
    })
}

fn place() -> Place {
    Place {
        content: content(0),
        payload: Payload::empty(),
        users: 9,
    }
}

fn entry() -> Result<Entry<Session>, Fail> {
    Ok(Entry {
        subscriber: subscriber(0)?,
        place: 9,
    })
}

#[test]
fn slots_behave(rt: HostRuntime) -> Result<(), Fail> {
    let mut memory = [slot()?; 100];
    let mut outbox = Slots::new(&mut memory)?;
    behaves(&rt, &mut outbox)
}

#[test]
fn shared_behaves(rt: HostRuntime) -> Result<(), Fail> {
    let mut contents = [place(); 2];
    let mut entries = [entry()?; 100];
    let mut outbox = Shared::new(&mut contents, &mut entries)?;
    behaves(&rt, &mut outbox)
}

#[test]
fn memory_is_enough(rt: HostRuntime) -> Result<(), Fail> {
    let short = Some(Refusal::ShortMemory);
    let mut memory = [slot()?; 99];
    assert_eq!(rt; Slots::new(&mut memory).err(), short);
    let mut contents = [place(); 1];
    let mut entries = [entry()?; 99];
    assert_eq!(rt; Shared::new(&mut contents, &mut entries).err(), short);
    let mut none = [place(); 0];
    let mut enough = [entry()?; 100];
    assert_eq!(rt; Shared::new(&mut none, &mut enough).err(), short);
    assert!(rt; Shared::new(&mut contents, &mut enough).is_ok());
    Ok(())
}

#[test]
fn contents_run_out(rt: HostRuntime) -> Result<(), Fail> {
    let mut contents = [place(); 1];
    let mut entries = [entry()?; 100];
    let mut outbox = Shared::new(&mut contents, &mut entries)?;
    assert_eq!(rt; post(&rt, &mut outbox, 1, 2, 256)?, Ok(()));
    assert_eq!(rt; post(&rt, &mut outbox, 2, 1, 0)?, Err(Refusal::OutboxFull));
    take(&rt, &mut outbox, 1, 256)?;
    assert_eq!(rt; post(&rt, &mut outbox, 2, 1, 0)?, Err(Refusal::OutboxFull));
    take(&rt, &mut outbox, 1, 256)?;
    assert_eq!(rt; post(&rt, &mut outbox, 2, 1, 0)?, Ok(()));
    take(&rt, &mut outbox, 2, 0)?;
    is_empty(&rt, &mut outbox)
}

#[test]
fn a_ring_takes_as_many_as_it_has_places(rt: HostRuntime) -> Result<(), Fail> {
    let item = entry()?;
    let mut places = [item; 2];
    let mut ring = Ring::new(&mut places);
    assert!(rt; ring.push(&item));
    assert!(rt; ring.push(&item));
    assert!(rt; !ring.push(&item));
    assert_eq!(rt; ring.free(), 0);
    ring.drop_first();
    assert!(rt; ring.push(&item));
    Ok(())
}

// What is neither `Copy` nor `Clone`, so that a caller hands over its own only by a closure that moves it.
#[derive(Drop, Debug, PartialEq)]
struct Owned {
    number: u32,
}

#[test]
fn a_closure_moves_its_own_into_a_ring(rt: HostRuntime) -> Result<(), Fail> {
    let mut places = [Owned { number: 1 }, Owned { number: 2 }];
    let mut ring = Ring::new(&mut places);
    let (third, fourth, fifth) = (
        Owned { number: 3 },
        Owned { number: 4 },
        Owned { number: 5 },
    );
    ring.push_with(|place| *place = third);
    ring.push_with(|place| *place = fourth);
    ring.drop_first();
    ring.push_with(|place| *place = fifth);
    assert_eq!(rt; ring.first(), Some(&Owned { number: 4 }));
    assert_eq!(rt; ring.get(1), Some(&Owned { number: 5 }));
    assert_eq!(rt; ring.free(), 0);
    Ok(())
}
