// Properties read from the bytes of a map, in one pass from the front; the first fault ends it.
ghost use Rattle.std.specs.Prelude.{◌≡◌};
ghost use Rattle.maps.specs.Heads.{major_number};
ghost use Rattle.maps.specs.Maps.{meant, item_of, number_of, text_of, date_of, value_of, entry_of, entries_of, read_map};
ghost use Rattle.maps.specs.Reading.{outcome, itself, told};

use crate::head::Major;
use crate::properties::{Key, Properties};
use crate::reader::Reader;
use protocol::Fault;

// The tag of a date, which counts its seconds from 1970.
pub const EPOCH_SECONDS: u64 = 1;

// The argument of an item of the given major type.
fn item(reader: &mut Reader<'_>, major: Major) -> Result<u64, Fault>
    ensures { outcome itself result reader.new.now ≡ item_of (major_number major) reader.old.now }
{
    let head = reader.head()?;
    if head.major != major {
        return Err(Fault::WrongType);
    }
    Ok(head.argument)
}

fn number(reader: &mut Reader<'_>) -> Result<u64, Fault>
    ensures { outcome itself result reader.new.now ≡ number_of reader.old.now }
{
    item(reader, Major::Unsigned)
}

fn text<'a>(reader: &mut Reader<'a>) -> Result<&'a [u8], Fault>
    ensures { outcome (λ x. x.now) result reader.new.now ≡ text_of reader.old.now }
{
    let len = item(reader, Major::Text)?;
    reader.text(len)
}

// A date: its tag, and an unsigned number.
fn date(reader: &mut Reader<'_>) -> Result<u64, Fault>
    ensures { outcome itself result reader.new.now ≡ date_of reader.old.now }
{
    if item(reader, Major::Tag)? != EPOCH_SECONDS {
        return Err(Fault::WrongType);
    }
    number(reader)
}

// The value of a key, added to what was read before it.
fn value<'a>(
    reader: &mut Reader<'a>,
    key: Key,
    before: Properties<'a>,
) -> Result<Properties<'a>, Fault>
    ensures { outcome meant result reader.new.now ≡ value_of key (meant before.entry) reader.old.now }
{
    match key {
        Key::Name => Ok(Properties {
            name: Some(text(reader)?),
            ..before
        }),
        Key::DataAddress => Ok(Properties {
            data_address: Some(text(reader)?),
            ..before
        }),
        Key::ResourceType => Ok(Properties {
            resource_type: Some(text(reader)?),
            ..before
        }),
        Key::ContentFormat => Ok(Properties {
            content_format: Some(number(reader)?),
            ..before
        }),
        Key::TopicType => Ok(Properties {
            topic_type: Some(text(reader)?),
            ..before
        }),
        Key::Expiration => Ok(Properties {
            expiration: Some(date(reader)?),
            ..before
        }),
        Key::MaxSubscribers => Ok(Properties {
            max_subscribers: Some(number(reader)?),
            ..before
        }),
        Key::ObserverCheck => Ok(Properties {
            observer_check: Some(number(reader)?),
            ..before
        }),
    }
}

// A key and its value, added to what was read before them.
fn entry<'a>(reader: &mut Reader<'a>, before: Properties<'a>) -> Result<Properties<'a>, Fault>
    ensures { outcome meant result reader.new.now ≡ entry_of (meant before.entry) reader.old.now }
{
    let key = Key::try_from(number(reader)?)?;
    if before.has(key) {
        return Err(Fault::RepeatedKey);
    }
    value(reader, key, before)
}

// As many keys and values as were declared, added to what was read before them.
fn entries<'a>(
    reader: &mut Reader<'a>,
    count: u64,
    before: Properties<'a>,
) -> Result<Properties<'a>, Fault>
    ensures { outcome meant result reader.new.now ≡ entries_of count (meant before.entry) reader.old.now }
{
    let mut all = before;
    for _ in 0..count {
        all = entry(reader, all)?;
    }
    Ok(all)
}

// The properties that the bytes of a map give.
pub fn read(bytes: &[u8]) -> Result<Properties<'_>, Fault>
    ensures { told result ≡ read_map bytes.now }
{
    let mut reader = Reader::new(bytes);
    let count = item(&mut reader, Major::Map)?;
    let all = entries(&mut reader, count, Properties::default())?;
    if !reader.is_done() {
        return Err(Fault::Trailing);
    }
    Ok(all)
}
