// The one form of properties: a map of definite length, its keys rising.
ghost use Rattle.std.specs.Prelude.{◌≡◌, ◌≤◌};
ghost use Rattle.maps.specs.Laws.{Carried};
ghost use Rattle.maps.specs.Maps.{given, meant, written};

use crate::entry::{put_date, put_head, put_number, put_text};
use crate::sink::Sink;
use maps::{Key, Major, Properties};

// How many keys are given.
fn count(p: &Properties<'_>) -> u64
    ensures answer { result ≡ given (meant p.now) }
    ensures len { result ≤ 8 }
{
    u64::from(p.has(Key::Name))
        + u64::from(p.has(Key::DataAddress))
        + u64::from(p.has(Key::ResourceType))
        + u64::from(p.has(Key::ContentFormat))
        + u64::from(p.has(Key::TopicType))
        + u64::from(p.has(Key::Expiration))
        + u64::from(p.has(Key::MaxSubscribers))
        + u64::from(p.has(Key::ObserverCheck))
}

// The whole map.
pub(crate) fn put_map<S: Sink>(sink: &mut S, p: &Properties<'_>)
    requires { S.Fits sink.old (written (meant p.now)) }
    ensures map { S.Takes sink.old (written (meant p.now)) sink.new }
    ensures value { Carried (meant p.now) }
{
    put_head(sink, Major::Map, count(p));
    put_text(sink, Key::Name, p.name);
    put_text(sink, Key::DataAddress, p.data_address);
    put_text(sink, Key::ResourceType, p.resource_type);
    put_number(sink, Key::ContentFormat, p.content_format);
    put_text(sink, Key::TopicType, p.topic_type);
    put_date(sink, Key::Expiration, p.expiration);
    put_number(sink, Key::MaxSubscribers, p.max_subscribers);
    put_number(sink, Key::ObserverCheck, p.observer_check);
}
