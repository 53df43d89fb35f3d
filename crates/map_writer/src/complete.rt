// Properties completed: by the defaults of what is not given, and by the address of the topic's data.
ghost use Rattle.std.specs.Prelude.{◌≡◌};
ghost use Rattle.maps.specs.Maps.{meant, with_data_address, with_defaults};

use maps::Properties;
use protocol::MAX_SUBSCRIBERS;

// The seconds between two checks of an observer where nothing is said: a day.
const OBSERVER_CHECK: u64 = 86_400;

// The properties with max-subscribers and observer-check where they are not given.
pub fn with_defaults(p: Properties<'_>) -> Properties<'_>
    ensures answer { meant result ≡ with_defaults (meant p.entry) }
{
    Properties {
        max_subscribers: Some(p.max_subscribers.unwrap_or(MAX_SUBSCRIBERS as u64)),
        observer_check: Some(p.observer_check.unwrap_or(OBSERVER_CHECK)),
        ..p
    }
}

// The properties with this data address, whether or not there was one.
pub fn addressed<'a>(p: Properties<'a>, address: &'a [u8]) -> Properties<'a>
    ensures answer { meant result ≡ with_data_address (meant p.entry) address.now }
{
    Properties {
        data_address: Some(address),
        ..p
    }
}
