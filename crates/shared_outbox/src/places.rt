// The content places that the caller lends: one is found free, written, named by entries, read and freed again.
ghost use Rattle.std.specs.Prelude.{◌≡◌, ◌==◌, ℕ, ◌+◌, ◌-◌, ◌^◌, ◌<◌, ◌≤◌, ◌++◌, length, drop, position, slice_index_or, slice_set};
ghost use Rattle.protocol.specs.Buffers.{laid};
ghost use Rattle.shared_outbox.specs.Places.{bodies, blank, counts, users_at};

use crate::place::Place;
use outbox::Content;
use std::marker::Model;

#[derive(Drop)]
pub struct Places<'a> {
    contents: &'a mut [Place],
}

// Clauses see the row of places.
impl<'a> Model for Places<'a> {
    ghost use Rattle.std.specs.Prelude.{List};
    ghost use Rattle.shared_outbox.specs.declared.place.Place.{Place};

    ghost Value = { List Place };

    ghost view = { λ p. p.contents.now };
}

// A place is asked for by a plain index, which each method requires to be one: an entry keeps it in lent memory, and what the outbox counts shows that it names a place.
impl<'a> Places<'a> {
    // The places that the caller lends, each marked as free.
    pub(crate) fn new(contents: &'a mut [Place]) -> Places<'a>
        ensures len { length result ≡ length contents.old }
        ensures free { (p : ℕ) → users_at result p ≡ 0 }
    {
        for place in contents.iter_mut() {
            place.users = 0;
        }
        Places { contents }
    }

    // The first place that no entry names.
    pub(crate) fn free(&self) -> Option<usize>
        ensures { result ≡ position (λ p. p.users == 0) self.now }
    {
        self.contents.iter().position(|place| place.users == 0)
    }

    // Writes a content and its payload to a place.
    pub(crate) fn write(&mut self, at: usize, content: Content, payload: &[u8])
        requires within { at < length self.old }
        requires short { length payload.now ≤ 256 }
        ensures bodies { bodies self.new ≡ slice_set (bodies self.old) at (record { content = content; payload = payload.now }) }
        ensures users { counts self.new ≡ counts self.old }
    {
        let contents = &mut *self.contents;
        let place = &mut contents[at];
        place.content = content;
        place.payload.set(payload);
    }

    // Notes that one entry more names the place.
    pub(crate) fn claim(&mut self, at: usize)
        requires within { at < length self.old }
        requires fits { users_at self.old at + 1 < 2 ^ 64 }
        ensures bodies { bodies self.new ≡ bodies self.old }
        ensures users { counts self.new ≡ slice_set (counts self.old) at (users_at self.old at + 1) }
    {
        let contents = &mut *self.contents;
        let place = &mut contents[at];
        place.users += 1;
    }

    // Notes that one entry less names the place.
    pub(crate) fn release(&mut self, at: usize)
        requires within { at < length self.old }
        requires used { 0 < users_at self.old at }
        ensures bodies { bodies self.new ≡ bodies self.old }
        ensures users { counts self.new ≡ slice_set (counts self.old) at (users_at self.old at - 1) }
    {
        let contents = &mut *self.contents;
        let place = &mut contents[at];
        place.users -= 1;
    }

    // Writes the payload in a place to the front of the buffer, and tells its content and length.
    pub(crate) fn read(&self, at: usize, out: &mut [u8]) -> (Content, usize)
        requires within { at < length self.now }
        requires room { 256 ≤ length out.old }
        ensures content { result.0 ≡ (slice_index_or (bodies self.now) at blank).content }
        ensures len { result.1 ≡ length (slice_index_or (bodies self.now) at blank).payload }
        ensures buffer { out.new ≡ laid (slice_index_or (bodies self.now) at blank).payload out.old }
    {
        let contents = &*self.contents;
        let place = &contents[at];
        let len = place.payload.copy_to(out);
        (place.content, len)
    }
}
