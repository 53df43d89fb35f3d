// Entries of a map: heads, and keys with their values where these are given.
ghost use Rattle.std.specs.Prelude.{◌≡◌, ◌∷◌, length};
ghost use Rattle.std.specs.Option.{option_map};
ghost use Rattle.maps.specs.Heads.{head_bytes, major_number};
ghost use Rattle.maps.specs.Laws.{Num, Text};
ghost use Rattle.maps.specs.Maps.{text_entry, number_entry, date_entry};

use crate::sink::Sink;
use maps::{EPOCH_SECONDS, Key, Major};

// A head whose argument stands in bytes of its own behind the first byte.
fn put_long<S: Sink>(sink: &mut S, first: u8, argument: &[u8])
    requires { S.Fits sink.old (first ∷ argument.now) }
    ensures { S.Takes sink.old (first ∷ argument.now) sink.new }
{
    sink.put(&[first]);
    sink.put(argument);
}

// The shortest head with this major type and argument.
pub(crate) fn put_head<S: Sink>(sink: &mut S, major: Major, argument: u64)
    requires { S.Fits sink.old (head_bytes (major_number major) argument) }
    ensures { S.Takes sink.old (head_bytes (major_number major) argument) sink.new }
{
    let kind = major as u8 * 32;
    if argument < 24 {
        sink.put(&[kind + argument as u8]);
    } else if argument < 256 {
        put_long(sink, kind + 24, &(argument as u8).to_be_bytes());
    } else if argument < 65_536 {
        put_long(sink, kind + 25, &(argument as u16).to_be_bytes());
    } else if argument < 4_294_967_296 {
        put_long(sink, kind + 26, &(argument as u32).to_be_bytes());
    } else {
        put_long(sink, kind + 27, &argument.to_be_bytes());
    }
}

// A key and its text.
pub(crate) fn put_text<S: Sink>(sink: &mut S, key: Key, text: Option<&[u8]>)
    requires { S.Fits sink.old (text_entry key (option_map (λ x. x.now) text)) }
    ensures entry { S.Takes sink.old (text_entry key (option_map (λ x. x.now) text.entry)) sink.new }
    ensures value { Text (option_map (λ x. x.now) text.entry) }
{
    if let Some(bytes) = text {
        put_head(sink, Major::Unsigned, u64::from(key));
        put_head(sink, Major::Text, bytes.len() as u64);
        sink.put(bytes);
    }
}

// A key and its number.
pub(crate) fn put_number<S: Sink>(sink: &mut S, key: Key, number: Option<u64>)
    requires { S.Fits sink.old (number_entry key number) }
    ensures entry { S.Takes sink.old (number_entry key number) sink.new }
    ensures value { Num number }
{
    if let Some(n) = number {
        put_head(sink, Major::Unsigned, u64::from(key));
        put_head(sink, Major::Unsigned, n);
    }
}

// A key and its date, a tagged number.
pub(crate) fn put_date<S: Sink>(sink: &mut S, key: Key, seconds: Option<u64>)
    requires { S.Fits sink.old (date_entry key seconds) }
    ensures entry { S.Takes sink.old (date_entry key seconds) sink.new }
    ensures value { Num seconds }
{
    if let Some(n) = seconds {
        put_head(sink, Major::Unsigned, u64::from(key));
        put_head(sink, Major::Tag, EPOCH_SECONDS);
        put_head(sink, Major::Unsigned, n);
    }
}
