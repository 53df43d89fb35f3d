// The caller's bytes with a log at their front, and what is done to it.
ghost use Rattle.std.specs.Prelude.{◌≡◌, ◌+◌, ◌/◌, ◌≤◌, true, false, [], ◌∷◌, length, take, is_some};
ghost use Rattle.log_store.specs.Format.{Log, entries};
ghost use Rattle.log_store.specs.Logs.{sifted};
ghost use Rattle.std.specs.Option.{option_map};
ghost use Rattle.store.specs.Held.{full, laid, look, next as next_of, proper, put as put_in, remove as remove_from};

use crate::entries::Entries;
use crate::sift::sift;
use crate::trailer::{TRAILER, write};
use protocol::Handle;
use store::{Key, VALUE_LIMIT};

// The most bytes that an entry takes.
pub const ENTRY_LIMIT: usize = VALUE_LIMIT + TRAILER;

// The caller's bytes, and how many of them the log has: no Vec, since the memory is lent and nothing is allocated.
#[derive(Drop)]
pub struct Memory<'a> {
    bytes: &'a mut [u8],
    used: usize,
    ghost within: { used ≤ length bytes.now },
    ghost log: { Log (take used bytes.now) },
}

impl<'a> Memory<'a> {
    ghost use Rattle.log_store.specs.Memories.{contents, held, size, with_entry};

    // The memory with an empty log.
    pub(crate) fn new(bytes: &'a mut [u8]) -> Memory<'a>
        ensures after { held result ≡ [] }
        ensures len { size result ≡ length bytes.old }
    {
        Memory { bytes, used: 0 }
    }

    // How many keys there is room for, whatever their values are.
    pub(crate) fn capacity(&self) -> usize
        ensures { result ≡ size self.now / 583 }
    {
        self.bytes.len() / ENTRY_LIMIT
    }

    // The entries of the log.
    fn entries(&self) -> Entries<'_>
        ensures { result.rest.now ≡ contents self.now }
    {
        Entries::of(&self.bytes[..self.used])
    }

    // Whether the log has an entry of the key.
    pub(crate) fn holds(&self, key: Key) -> bool
        ensures { result ≡ is_some (look (held self.now) key) }
    {
        self.entries().has(key)
    }

    // Copies the key's value to the front of a buffer that has room for any value.
    pub(crate) fn get(&self, key: Key, out: &mut [u8]) -> Option<usize>
        requires { 576 ≤ length out.old }
        ensures answer { result ≡ option_map length (look (held self.now) key) }
        ensures buffer { out.new ≡ laid (look (held self.now) key) out.old }
    {
        let value = self.entries().value_of(key)?;
        out[..value.len()].copy_from_slice(value);
        Some(value.len())
    }

    // The lowest handle above the given one that has properties.
    pub(crate) fn next(&self, after: Handle) -> Option<Handle>
        ensures { option_map (λ h. h.0) result ≡ next_of (held self.now) after.0 }
    {
        self.entries().next_topic(after)
    }

    // Squeezes out the entries of a key, and no others.
    pub(crate) fn remove(&mut self, key: Key)
        ensures len { size self.new ≡ size self.old }
        ensures log { entries (contents self.new) ≡ sifted key false [] (entries (contents self.old)) }
        ensures after { held self.new ≡ remove_from (held self.old) key }
    {
        self.used = sift(&mut self.bytes[..self.used], |_, other| other != key);
    }

    // Squeezes out the entries of a key that is put, and the dead entries of all keys.
    fn make_room(&mut self, key: Key)
        ensures len { size self.new ≡ size self.old }
        ensures log { entries (contents self.new) ≡ sifted key true [] (entries (contents self.old)) }
    {
        self.used = sift(&mut self.bytes[..self.used], |newer, other| {
            other != key && !newer.has(other)
        });
    }

    // Puts an entry behind the log.
    fn append(&mut self, key: Key, value: &[u8])
        requires { (proper key ≡ true) × (length value.now ≤ 576) × (self.old.used + length value.now + 7 ≤ size self.old) }
        ensures len { size self.new ≡ size self.old }
        ensures log { entries (contents self.new) ≡ record { key = key; value = value.now } ∷ entries (contents self.old) }
    {
        let trailer = write(key, value.len() as u16);
        let end = self.used + value.len();
        self.bytes[self.used..end].copy_from_slice(value);
        self.bytes[end..end + TRAILER].copy_from_slice(&trailer);
        self.used = end + TRAILER;
    }

    // Puts an entry behind the log; only where it would not fit are entries squeezed out first.
    pub(crate) fn put(&mut self, key: Key, value: &[u8])
        requires entry { (proper key ≡ true) × (length value.now ≤ 576) }
        requires room { (length (held self.old) ≤ size self.old / 583) × (full (held self.old) (size self.old / 583) key ≡ false) }
        ensures len { size self.new ≡ size self.old }
        ensures log { entries (contents self.new) ≡ with_entry (size self.old) (entries (contents self.old)) (record { key = key; value = value.now }) }
        ensures after { held self.new ≡ put_in (held self.old) key value.now }
    {
        if value.len() + TRAILER > self.bytes.len() - self.used {
            self.make_room(key);
        }
        self.append(key, value);
    }
}
