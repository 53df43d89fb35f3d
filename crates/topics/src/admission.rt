// What a new topic's map must be, and what its properties then are.
ghost use Rattle.std.specs.Prelude.{◌≡◌, not, ◌&&◌, length, is_some, IfOk, codes};
ghost use Rattle.protocol.specs.Bytes.{alike};
ghost use Rattle.std.specs.Option.{option_map};
ghost use Rattle.maps.specs.Laws.{Topical};
ghost use Rattle.maps.specs.Maps.{meant};
ghost use Rattle.maps.specs.Reading.{told};
ghost use Rattle.topics.specs.Admission.{admitted, fit, gives};

use map_writer::{addressed, with_defaults};
use maps::{Properties, check_range, read};
use protocol::Refusal;

// The largest map that a client may send, in bytes.
const MAX_MAP: usize = 576;

// Whether the text is the resource type of topics.
fn is_topic_type(text: Option<&[u8]>) -> bool
    ensures { result ≡ gives (codes "core.ps.data") (option_map (λ x. x.now) text.entry) }
{
    text == Some(b"core.ps.data".as_slice())
}

// Whether the needed keys are given and the forbidden one is not.
fn is_fit(p: &Properties<'_>) -> bool
    ensures { result ≡ fit (meant p.now) }
{
    p.name.is_some() && is_topic_type(p.resource_type) && p.data_address.is_none()
}

// The properties of a new topic with this data address, from the map that a client sent.
pub fn new_topic<'a>(map: &'a [u8], address: &'a [u8]) -> Result<Properties<'a>, Refusal>
    ensures answer { told result ≡ admitted address.now map.now }
    ensures topical { length address.now ≡ 17 → IfOk result (λ p. Topical (meant p)) }
{
    if map.len() > MAX_MAP {
        return Err(Refusal::TooLarge);
    }
    let given = read(map)?;
    check_range(&given)?;
    if !is_fit(&given) {
        return Err(Refusal::BadValue);
    }
    Ok(with_defaults(addressed(given, address)))
}
