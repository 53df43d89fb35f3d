// Bytes as hexadecimal text, two digits to a byte.
#![tactic(auto)]

ghost use Rattle.std.specs.Prelude.{◌≡◌, ℕ, ◌+◌, ◌*◌, ◌/◌, ◌%◌, ◌<◌, List, [], ◌∷◌, ◌++◌, IfSome, IfOk, vec_items, string_bytes, OnOk};
ghost use Rattle.hexadecimal.specs.Digits.{decoded, digit_value, hex_text};
ghost use Rattle.protocol.specs.Addresses.{hex_digit};
ghost use Rattle.std.specs.Option.{option_map};

use protocol::hex_digit;
use std::alloc::{AllocError, Global};

// The value of a digit, in either case.
fn value_of(digit: u8) -> Option<u8>
    ensures value { result ≡ digit_value digit }
    ensures bound { IfSome result (λ v. v < 16) }
{
    match digit {
        b'0'..=b'9' => Some(digit - b'0'),
        b'A'..=b'F' => Some(digit - b'A' + 10),
        b'a'..=b'f' => Some(digit - b'a' + 10),
        _ => None,
    }
}

// The bytes that the digits write, with spaces allowed between bytes; none where the text is no such thing.
pub fn decode(heap: Global, text: &[u8]) -> Result<Option<Vec<u8>>, AllocError>
    ensures { IfOk result (λ o. option_map vec_items o ≡ decoded text.now) }
{
    let mut bytes = Vec::new(heap);
    let mut high = None;
    for c in text {
        match (high, value_of(*c)) {
            (None, Some(digit)) => high = Some(digit),
            (Some(first), Some(digit)) => {
                bytes.push(first * 16 + digit)?;
                high = None;
            }
            (Some(_), None) => return Ok(None),
            (None, None) => {
                if *c != b' ' {
                    return Ok(None);
                }
            }
        }
    }
    if high.is_some() {
        return Ok(None);
    }
    Ok(Some(bytes))
}

// Writes the two digits of a byte behind the text.
fn push_byte(text: &mut String, b: u8) -> Result<(), AllocError>
    ensures { OnOk result (string_bytes text.new ≡ string_bytes text.old ++ (hex_digit (b / 16) ∷ (hex_digit (b % 16) ∷ []))) }
{
    text.push(hex_digit(u32::from(b / 16)) as char)?;
    text.push(hex_digit(u32::from(b)) as char)?;
    Ok(())
}

// The lowercase digits of the bytes. Not the kit's `hex`: this file reads spaces too, and says what a digit is once, for both ways.
pub fn encode(heap: Global, bytes: &[u8]) -> Result<String, AllocError>
    ensures { IfOk result (λ s. string_bytes s ≡ hex_text bytes.now) }
{
    let mut text = String::new(heap);
    for b in bytes {
        push_byte(&mut text, *b)?;
    }
    Ok(text)
}
