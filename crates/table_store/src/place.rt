// One place of the table: free, or held by an entry, with its value.
ghost use Rattle.std.specs.Prelude.{◌≡◌, ◌≤◌, None, length, IfSome};
ghost use Rattle.std.specs.Option.{option_map};
ghost use Rattle.store.specs.Held.{laid, value_limit};
ghost use Rattle.table_store.specs.Places.{filled, holds, topic_of, value_of};

use crate::entry::Entry;
use protocol::Handle;
use store::{Key, VALUE_LIMIT};

// The value stands beside the entry, so that a put writes it in place and a remove leaves it.
#[derive(Clone, Copy)]
pub(crate) struct Place {
    pub(crate) held: Option<Entry>,
    pub(crate) value: [u8; VALUE_LIMIT],
}

impl Place {
    // A free place.
    pub(crate) fn free() -> Place
        ensures answer { result.held ≡ None }
        ensures room { length result.value ≡ value_limit }
    {
        Place {
            held: None,
            value: [0; VALUE_LIMIT],
        }
    }

    // Whether the place is held for the key.
    pub(crate) fn is_held_for(&self, key: Key) -> bool
        ensures { result ≡ holds self.now key }
    {
        // The handle first, which differs for most keys: the derived `==` is compiled to ask for the part first.
        self.held.as_ref().is_some_and(|entry| entry.key.handle == key.handle
            && entry.key.part == key.part)
    }

    // Copies the value, if there is one, to the front of the buffer, and tells its length.
    pub(crate) fn copy_to(&self, out: &mut [u8]) -> Option<usize>
        requires { IfSome self.now.held (λ e. e.len ≤ value_limit) × (length self.now.value ≡ value_limit) × (value_limit ≤ length out.old) }
        ensures answer { result ≡ option_map length (value_of self.now) }
        ensures buffer { out.new ≡ laid (value_of self.now) out.old }
    {
        let len = self.held.as_ref()?.len;
        out[..len].copy_from_slice(&self.value[..len]);
        Some(len)
    }

    // The handle of the properties that the place is held for, if it is above the given one.
    pub(crate) fn topic_above(&self, after: Handle) -> Option<Handle>
        ensures { result ≡ topic_of self.now after }
    {
        self.held
            .as_ref()
            .and_then(|entry| entry.key.topic_above(after))
    }

    // Holds the place for the entry, and writes its value in front.
    pub(crate) fn hold(&mut self, entry: Entry, value: &[u8])
        requires { (length value.now ≤ value_limit) × (length self.old.value ≡ value_limit) }
        ensures { self.new ≡ filled self.old entry value.now }
    {
        self.held = Some(entry);
        self.value[..value.len()].copy_from_slice(value);
    }
}
