// One map of the sheet, kept in the store as a topic.
ghost use Rattle.std.specs.Prelude.{◌≡◌, length};
ghost use Rattle.protocol.specs.Addresses.{data_address};
ghost use Rattle.sheet.specs.Keeping.{answer_to, held_after};
ghost use Rattle.store.specs.Held.{properties_key};
ghost use Rattle.topics.specs.Admission.{admitted};

use map_writer::write;
use protocol::{Handle, Refusal, data_address};
use store::{Key, Store, VALUE_LIMIT};
use topics::new_topic;

// Stores the topic that the map makes with this data address, in its one written form.
fn keep_at<'a, S: Store>(
    store: &mut S,
    handle: Handle,
    map: &'a [u8],
    address: &'a [u8],
) -> Result<(), Refusal>
    requires { length address.now ≡ 17 }
    ensures answer { result ≡ answer_to (admitted address.now map.now) (S.Store.held store.old) (S.Store.capacity store.old) (properties_key handle.0) }
    ensures after { S.Store.held store.new ≡ held_after (admitted address.now map.now) (S.Store.held store.old) (S.Store.capacity store.old) (properties_key handle.0) }
{
    let topic = new_topic(map, address)?;
    let mut value = [0; VALUE_LIMIT];
    // let and else, and no `ok_or`: the proof that a topic's map always fits reads the two cases apart
    let Some(len) = write(&topic, &mut value) else {
        return Err(Refusal::TooLarge);
    };
    store.put(Key { handle, part: 0 }, &value[0..len])
}

// Stores the topic that the map makes under the handle.
pub(crate) fn keep<S: Store>(store: &mut S, handle: Handle, map: &[u8]) -> Result<(), Refusal>
    ensures answer { result ≡ answer_to (admitted (data_address handle.0) map.now) (S.Store.held store.old) (S.Store.capacity store.old) (properties_key handle.0) }
    ensures after { S.Store.held store.new ≡ held_after (admitted (data_address handle.0) map.now) (S.Store.held store.old) (S.Store.capacity store.old) (properties_key handle.0) }
{
    let address = data_address(handle);
    keep_at(store, handle, map, &address)
}
