// The lines of a sheet, one after the other, and what the store holds at the end.
use crate::keeping::keep;
use crate::text::{Shown, Told};
use anyhow::bail;
use hexadecimal::{decode, encode};
use maps::read;
use protocol::Handle;
use store::{Key, Store, VALUE_LIMIT};

// How many maps are stored, and of how many the line said what is wrong.
#[derive(Clone, Copy, Default)]
struct Tally {
    stored: u32,
    refused: u32,
}

// Prints the stored map of the topic in hexadecimal, and its properties, each line behind the given words.
fn print_topic<S: Store>(
    rt: &HostRuntime,
    store: &S,
    handle: Handle,
    words: &str,
) -> anyhow::Result<()> {
    let heap = rt.alloc();
    let mut value = [0; VALUE_LIMIT];
    let Ok(Some(len)) = store.get(Key { handle, part: 0 }, &mut value) else {
        bail!("the store does not hold what was put");
    };
    if len > VALUE_LIMIT {
        bail!("the store gave more than it may hold");
    }
    let map = &value[0..len];
    let number = handle.0;
    let digits = encode(heap, map)?;
    println!(rt; "{words} handle={number} {digits}")?;
    if let Ok(properties) = read(map) {
        let text = Shown(properties);
        println!(rt; "   {text}")?;
    }
    Ok(())
}

// One map of the sheet: stored under the next handle, or refused.
fn take_map<S: Store>(
    rt: &HostRuntime,
    store: &mut S,
    number: usize,
    text: &str,
    tally: Tally,
) -> anyhow::Result<Tally> {
    let heap = rt.alloc();
    let stored = tally.stored.saturating_add(1);
    let refused = tally.refused.saturating_add(1);
    let Some(map) = decode(heap, text.as_bytes())? else {
        println!(rt; "line {number}: not hexadecimal")?;
        return Ok(Tally { refused, ..tally });
    };
    match keep(store, Handle(stored), map.as_slice()) {
        Ok(()) => {
            let words = format!(in heap; "line {number}: stored")?;
            print_topic(rt, store, Handle(stored), words.as_str())?;
            Ok(Tally { stored, ..tally })
        }
        Err(refusal) => {
            let told = Told(refusal);
            println!(rt; "line {number}: {told}")?;
            Ok(Tally { refused, ..tally })
        }
    }
}

// Prints every topic that the store holds, by rising handle; how many there are.
fn print_held<S: Store>(rt: &HostRuntime, store: &S) -> anyhow::Result<u32> {
    // not by `successors`: in generic code a `for` over an adapter with a closure gets no proof
    let mut last = Handle(0);
    for count in 0..u32::MAX {
        let Some(handle) = store.next(last) else {
            return Ok(count);
        };
        print_topic(rt, store, handle, "held:")?;
        last = handle;
    }
    Ok(u32::MAX)
}

// Reads the whole sheet into an empty store.
pub(crate) fn run<S: Store>(rt: &HostRuntime, text: &str, store: &mut S) -> anyhow::Result<()> {
    let mut tally = Tally::default();
    for (i, line) in text.lines().enumerate() {
        let line = line.trim();
        if line.is_empty() || line.starts_with('#') {
            continue;
        }
        tally = take_map(rt, store, i.saturating_add(1), line, tally)?;
    }
    let topics = print_held(rt, store)?;
    let Tally { stored, refused } = tally;
    let maps = stored.saturating_add(refused);
    println!(rt; "done: {maps} maps, {stored} stored, {refused} refused, {topics} topics held")?;
    Ok(())
}
