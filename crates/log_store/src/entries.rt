// The entries of a log, from the newest to the oldest.
ghost use Rattle.std.specs.Prelude.{◌≡◌, ◌≤◌, length, is_some, IfSome};
ghost use Rattle.std.specs.Option.{option_map};
ghost use Rattle.log_store.specs.Format.{Log, entries};
ghost use Rattle.log_store.specs.Logs.{meaning};
ghost use Rattle.store.specs.Held.{look, next as next_of};

use crate::trailer::{TRAILER, Trailer, read};
use protocol::Handle;
use store::{Key, lower};

// An entry: a key, and its value as a part of the log.
#[derive(Clone, Copy)]
pub struct Entry<'a> {
    pub key: Key,
    pub value: &'a [u8],
}

// The entries that are still to come, in the bytes that have them: a log, whose newest entry lies last.
#[derive(Drop)]
pub struct Entries<'a> {
    rest: &'a [u8],
    ghost log: { Log rest.now },
}

impl<'a> Entries<'a> {
    // All entries of a log.
    pub(crate) fn of(log: &'a [u8]) -> Entries<'a>
        requires { Log log.now }
        ensures { result.rest.now ≡ log.now }
    {
        Entries { rest: log }
    }

    // The key's value: that of its newest entry.
    pub(crate) fn value_of(mut self, key: Key) -> Option<&'a [u8]>
        ensures value { option_map (λ v. v.now) result ≡ look (meaning (entries self.entry.rest.now)) key }
        ensures within { IfSome result (λ v. length v.now ≤ 576) }
    {
        self.find(|entry| entry.key == key).map(|entry| entry.value)
    }

    // Whether the key has an entry.
    pub(crate) fn has(mut self, key: Key) -> bool
        ensures log { result ≡ is_some (look (entries self.entry.rest.now) key) }
        ensures map { result ≡ is_some (look (meaning (entries self.entry.rest.now)) key) }
    {
        self.any(|entry| entry.key == key)
    }

    // The lowest handle above the given one that has properties. A dead entry serves as well: its key has a newer one.
    pub(crate) fn next_topic(self, after: Handle) -> Option<Handle>
        ensures { option_map (λ h. h.0) result ≡ next_of (meaning (entries self.entry.rest.now)) after.0 }
    {
        self.fold(None, |best, entry| lower(best, entry.key, after))
    }
}

impl<'a> Iterator for Entries<'a> {
    type Item = Entry<'a>;

    ghost use Rattle.std.specs.Iterator.{YieldsFirstBy, item_count};
    ghost use Rattle.log_store.specs.Entries.{entry_of, to_come};

    ghost next_gives = { YieldsFirstBy entry_of to_come };

    ghost remaining = { item_count to_come };

    fn next(&mut self) -> Option<Entry<'a>> {
        let (front, trailer) = self.rest.split_last_chunk::<TRAILER>()?;
        let Trailer { key, len } = read(trailer);
        let (rest, value) = front.split_at(front.len() - len);
        self.rest = rest;
        Some(Entry { key, value })
    }
}
