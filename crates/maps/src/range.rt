// Whether the values of properties lie in their ranges.
ghost use Rattle.std.specs.Prelude.{◌≡◌, ◌&&◌, length, if◌then◌else◌, Ok, Err, nat_le};
ghost use Rattle.std.specs.Option.{option_map};
ghost use Rattle.protocol.specs.declared.refusal.Refusal.TheVariants.{BadValue};
ghost use Rattle.maps.specs.Maps.{in_range, meant, absent_or};

use crate::properties::Properties;
use protocol::{MAX_SUBSCRIBERS, Refusal};

const MAX_TEXT: usize = 256;

const MAX_FORMAT: u64 = 65535;

const MAX_SECONDS: u64 = 4294967295;

// Whether a text is absent, or its length lies between the limits.
fn text_within(text: Option<&[u8]>, least: usize) -> bool
    ensures { result ≡ absent_or (λ t. nat_le least (length t) && nat_le (length t) 256) (option_map (λ x. x.now) text.entry) }
{
    text.is_none_or(|t| (least..=MAX_TEXT).contains(&t.len()))
}

// Whether a number is absent, or at most the limit.
fn at_most(number: Option<u64>, limit: u64) -> bool
    ensures { result ≡ absent_or (λ n. nat_le n limit) number }
{
    number.is_none_or(|n| n <= limit)
}

// Refuses properties of which a value lies out of its range.
pub fn check_range(properties: &Properties<'_>) -> Result<(), Refusal>
    ensures { result ≡ (if in_range (meant properties.now) then Ok tt else Err BadValue) }
{
    let within = text_within(properties.name, 1)
        && at_most(properties.content_format, MAX_FORMAT)
        && text_within(properties.topic_type, 0)
        && at_most(properties.expiration, MAX_SECONDS)
        && at_most(properties.max_subscribers, MAX_SUBSCRIBERS as u64)
        && at_most(properties.observer_check, MAX_SECONDS);
    if within {
        Ok(())
    } else {
        Err(Refusal::BadValue)
    }
}
