// Runs the examples of RFC 8949, Appendix A and F, through the head reader and the map reader, a line for each.
#![tactic(auto)]

ghost use Rattle.std.specs.Prelude.{◌≡◌, ◌∷◌, IfOk};

mod shown;

use crate::shown::{Shown, ShownHead, ShownMap};
use anyhow::Context;
use maps::{Reader, read};
use std::alloc::{AllocError, Global};
use std::fs;

// The head of a map with one entry.
const ONE_ENTRY: u8 = 0xa1;

// A map whose one entry has the key and, as its value, the example.
fn payload(heap: Global, key: u8, example: &[u8]) -> Result<Vec<u8>, AllocError>
    ensures { IfOk result (λ v. v.items ≡ 161 ∷ (key ∷ example.now)) }
{
    let mut bytes = Vec::new(heap);
    bytes.push(ONE_ENTRY)?;
    bytes.push(key)?;
    bytes.extend_from_slice(example)?;
    Ok(bytes)
}

// What is read of an example: its head, the example as a map, and as the value of each key from 0 to 7.
fn print_example(rt: &HostRuntime, example: &[u8]) -> anyhow::Result<()> {
    let head = Shown(Reader::new(example).head().map(ShownHead));
    let map = Shown(read(example).map(ShownMap));
    print!(rt; "head {head} | map {map}")?;
    for key in 0..8 {
        let bytes = payload(rt.alloc(), key, example)?;
        let value = Shown(read(bytes.as_slice()).map(ShownMap));
        print!(rt; " | {value}")?;
    }
    println!(rt; "")?;
    Ok(())
}

// The examples of a file: in each line the bytes as hexadecimal text, and what they are behind a tab.
fn print_file(rt: &HostRuntime, name: &str) -> anyhow::Result<()> {
    let text = fs::read_to_string(rt, name)?;
    println!(rt; "{name}")?;
    for line in text.as_str().lines() {
        if let Some((hex, _)) = line.split_once('\t') {
            let example = hexadecimal::decode(rt.alloc(), hex.as_bytes())?.context(
                "not hexadecimal text",
            )?;
            print!(rt; "{hex} | ")?;
            print_example(rt, example.as_slice())?;
        }
    }
    Ok(())
}

fn main(rt: HostRuntime) -> anyhow::Result<()> {
    print_file(&rt, "rfc8949-appendix-a.txt")?;
    print_file(&rt, "rfc8949-appendix-f.txt")
}
