// The properties of a topic, and the keys that they have in a map.
ghost use Rattle.std.specs.Prelude.{◌≡◌};
ghost use Rattle.maps.specs.Maps.{has, key_number, known, meant};

use protocol::Fault;

// What a map says, with texts as parts of the bytes that were read and no value checked for its range.
#[derive(Clone, Copy, PartialEq, Eq, Debug, Default)]
pub struct Properties<'a> {
    pub name: Option<&'a [u8]>,
    pub data_address: Option<&'a [u8]>,
    pub resource_type: Option<&'a [u8]>,
    pub content_format: Option<u64>,
    pub topic_type: Option<&'a [u8]>,
    pub expiration: Option<u64>,
    pub max_subscribers: Option<u64>,
    pub observer_check: Option<u64>,
}

// The keys of a map, by their numbers.
#[derive(Clone, Copy, PartialEq, Eq, Debug)]
pub enum Key {
    Name = 0,
    DataAddress = 1,
    ResourceType = 2,
    ContentFormat = 3,
    TopicType = 4,
    Expiration = 5,
    MaxSubscribers = 6,
    ObserverCheck = 7,
}

// The key that has this number; none has one above 7.
impl TryFrom<u64> for Key {
    type Error = Fault;

    ghost try_from_gives = { λ n r. r ≡ known n };

    fn try_from(number: u64) -> Result<Key, Fault> {
        match number {
            0 => Ok(Key::Name),
            1 => Ok(Key::DataAddress),
            2 => Ok(Key::ResourceType),
            3 => Ok(Key::ContentFormat),
            4 => Ok(Key::TopicType),
            5 => Ok(Key::Expiration),
            6 => Ok(Key::MaxSubscribers),
            7 => Ok(Key::ObserverCheck),
            _ => Err(Fault::UnknownKey),
        }
    }
}

impl From<Key> for u64 {
    ghost from_gives = { λ key n. n ≡ key_number key };

    fn from(key: Key) -> u64 {
        key as u64
    }
}

impl Properties<'_> {
    // Whether the key is given.
    pub fn has(&self, key: Key) -> bool
        ensures { result ≡ has (meant self.now) key }
    {
        match key {
            Key::Name => self.name.is_some(),
            Key::DataAddress => self.data_address.is_some(),
            Key::ResourceType => self.resource_type.is_some(),
            Key::ContentFormat => self.content_format.is_some(),
            Key::TopicType => self.topic_type.is_some(),
            Key::Expiration => self.expiration.is_some(),
            Key::MaxSubscribers => self.max_subscribers.is_some(),
            Key::ObserverCheck => self.observer_check.is_some(),
        }
    }
}
