// Refusals and properties in words.
use maps::Properties;
use protocol::{Fault, Refusal};
use std::error::Error;
use std::fmt;

// What a fault of reading means. Words of this program: another crate's type takes no Display from here.
fn fault_words(fault: Fault) -> &'static str {
    match fault {
        Fault::Ends => "the bytes end inside an item",
        Fault::WrongType => "an item of a wrong type or tag",
        Fault::UnknownKey => "a key above 7",
        Fault::RepeatedKey => "a key twice",
        Fault::Trailing => "bytes behind the map",
    }
}

// What a refusal of a map means.
fn refusal_words(refusal: Refusal) -> &'static str {
    match refusal {
        Refusal::TooLarge => "the map has over 576 bytes",
        Refusal::Unreadable(fault) => fault_words(fault),
        Refusal::BadValue => "a value out of range, a needed key missing or a forbidden one given",
        Refusal::ShortMemory => "a log needs at least 1166 bytes",
        Refusal::StoreFull => "the store is full",
        _ => "the store refuses the request",
    }
}

// A refusal with its number, its code and fault where it has them, and words.
#[derive(Clone, Copy, Debug)]
pub(crate) struct Told(pub(crate) Refusal);

impl fmt::Display for Told {
    fn fmt<W: fmt::Write>(&self, f: &mut fmt::Formatter<W>) -> fmt::Result {
        let refusal = self.0;
        let words = refusal_words(refusal);
        write!(f, "refused {refusal} ({words})")
    }
}

impl Error for Told {}

// Bytes between quotes, with every byte that is no plain character in hexadecimal.
#[derive(Clone, Copy)]
struct Quoted<'a>(&'a [u8]);

impl fmt::Display for Quoted<'_> {
    fn fmt<W: fmt::Write>(&self, f: &mut fmt::Formatter<W>) -> fmt::Result {
        f.write_char('"')?;
        for b in self.0 {
            let b = *b;
            match b {
                b'"' | b'\\' => write!(f, "\\x{b:02x}")?,
                b' '..=b'~' => f.write_char(b as char)?,
                _ => write!(f, "\\x{b:02x}")?,
            }
        }
        f.write_char('"')
    }
}

// A property, where it is given.
// `vectors` has one for numbered keys: a crate for the two would be longer than both.
fn show<W: fmt::Write, V: fmt::Display + Drop>(
    f: &mut fmt::Formatter<W>,
    name: &str,
    value: Option<V>,
) -> fmt::Result {
    match value {
        Some(value) => write!(f, " {name}={value}"),
        None => Ok(()),
    }
}

// The properties that are given, by rising key.
#[derive(Clone, Copy)]
pub(crate) struct Shown<'a>(pub(crate) Properties<'a>);

impl fmt::Display for Shown<'_> {
    fn fmt<W: fmt::Write>(&self, f: &mut fmt::Formatter<W>) -> fmt::Result {
        let p = &self.0;
        show(f, "topic-name", p.name.map(Quoted))?;
        show(f, "topic-data", p.data_address.map(Quoted))?;
        show(f, "resource-type", p.resource_type.map(Quoted))?;
        show(f, "topic-content-format", p.content_format)?;
        show(f, "topic-type", p.topic_type.map(Quoted))?;
        show(f, "expiration-date", p.expiration)?;
        show(f, "max-subscribers", p.max_subscribers)?;
        show(f, "observer-check", p.observer_check)
    }
}
