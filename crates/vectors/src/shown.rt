// Results of reading as text: a fault by its number, a head by its major type and argument, properties by their keys.
use maps::{Head, Key, Properties};
use protocol::Fault;
use std::fmt;

// What was read, or the number of the fault.
#[derive(Clone, Copy)]
pub struct Shown<T>(pub Result<T, Fault>);

impl<T: fmt::Display> fmt::Display for Shown<T> {
    fn fmt<W: fmt::Write>(&self, f: &mut fmt::Formatter<W>) -> fmt::Result {
        match &self.0 {
            Ok(read) => write!(f, "{read}"),
            Err(fault) => {
                let number = fault.number();
                write!(f, "fault {number}")
            }
        }
    }
}

#[derive(Clone, Copy)]
pub struct ShownHead(pub Head);

impl fmt::Display for ShownHead {
    fn fmt<W: fmt::Write>(&self, f: &mut fmt::Formatter<W>) -> fmt::Result {
        let Head { major, argument } = self.0;
        let major = major as u8;
        write!(f, "{major}:{argument}")
    }
}

// Bytes as hexadecimal digits.
#[derive(Clone, Copy)]
struct Hex<'a>(&'a [u8]);

impl fmt::Display for Hex<'_> {
    fn fmt<W: fmt::Write>(&self, f: &mut fmt::Formatter<W>) -> fmt::Result {
        write!(f, "h'")?;
        for b in self.0 {
            write!(f, "{b:02x}")?;
        }
        write!(f, "'")
    }
}

// A property that is given.
// `sheet` has one for named keys: a crate for the two would be longer than both.
fn show<W: fmt::Write, V: fmt::Display + Drop>(
    f: &mut fmt::Formatter<W>,
    key: Key,
    value: Option<V>,
) -> fmt::Result {
    match value {
        Some(value) => {
            let key = u64::from(key);
            write!(f, " {key}={value}")
        }
        None => Ok(()),
    }
}

#[derive(Clone, Copy)]
pub struct ShownMap<'a>(pub Properties<'a>);

impl fmt::Display for ShownMap<'_> {
    fn fmt<W: fmt::Write>(&self, f: &mut fmt::Formatter<W>) -> fmt::Result {
        let p = &self.0;
        write!(f, "ok")?;
        show(f, Key::Name, p.name.map(Hex))?;
        show(f, Key::DataAddress, p.data_address.map(Hex))?;
        show(f, Key::ResourceType, p.resource_type.map(Hex))?;
        show(f, Key::ContentFormat, p.content_format)?;
        show(f, Key::TopicType, p.topic_type.map(Hex))?;
        show(f, Key::Expiration, p.expiration)?;
        show(f, Key::MaxSubscribers, p.max_subscribers)?;
        show(f, Key::ObserverCheck, p.observer_check)
    }
}
