// Making a shared outbox, and its queue.
ghost use Rattle.std.specs.Prelude.{◌≡◌, ◌+◌, ◌<◌, ◌&&◌, [], ◌∷◌, ◌++◌, length, is_ok, IfOk, MatchResult, nat_le, slice_index_or, Ok, Err};
ghost use Rattle.protocol.specs.declared.refusal.Refusal.TheVariants.{ShortMemory};
ghost use Rattle.clients.specs.Subs.{sub_of};
ghost use Rattle.outbox.specs.Answers.{post_answer};
ghost use Rattle.shared_outbox.specs.Entries.{uses};
ghost use Rattle.shared_outbox.specs.Held.{bodies_in, capacity_of, held, places_of, room_in, waiting_in};
ghost use Rattle.shared_outbox.specs.Laws.{room-sound};
ghost use Rattle.shared_outbox.specs.Places.{blank};

use super::Shared;
use crate::entry::Entry;
use crate::place::Place;
use crate::places::Places;
use clients::{Client, Subscriber};
use outbox::{Content, MAX_PAYLOAD, MAX_SUBSCRIBERS, Message, Outbox, Ring, check_batch};
use protocol::Refusal;

impl<'a, C: Client> Shared<'a, C> {
    // An outbox over these places and entries with nothing waiting; no place or fewer than 100 entries are refused.
    pub fn new(
        contents: &'a mut [Place],
        entries: &'a mut [Entry<C>],
    ) -> Result<Shared<'a, C>, Refusal>
        ensures answer { is_ok result ≡ (nat_le 1 (length contents.old) && nat_le 100 (length entries.old)) }
        ensures after { MatchResult result (λ q. waiting_in C.Client.identity q ≡ []) (λ e. e ≡ ShortMemory) }
        ensures capacity { IfOk result (λ q. (capacity_of q ≡ length entries.old) × (places_of q ≡ length contents.old)) }
    {
        if contents.is_empty() || entries.len() < MAX_SUBSCRIBERS {
            return Err(Refusal::ShortMemory);
        }
        Ok(Shared {
            places: Places::new(contents),
            entries: Ring::new(entries),
        })
    }

    // A free place for the content of a batch for so many subscribers, with a payload of so many bytes, or why a post refuses it.
    fn place_for(&self, count: usize, len: usize) -> Result<usize, Refusal>
        ensures { MatchResult result
            (λ p. (p < places_of self.now) × (uses p (held self.now) ≡ 0) × (post_answer (room_in self.now) count len ≡ Ok tt))
            (λ e. post_answer (room_in self.now) count len ≡ Err e) }
    {
        check_batch(count, len, self.entries.free())?;
        self.places.free().ok_or(Refusal::OutboxFull)
    }

    // Puts a message behind what waits whose content stands in the place.
    fn push(&mut self, subscriber: Subscriber<C>, place: usize)
        requires room { length (held self.old) < capacity_of self.old }
        requires within { place < places_of self.old }
        ensures after { waiting_in C.Client.identity self.new ≡ waiting_in C.Client.identity self.old ++ record { to = sub_of C.Client.identity subscriber; content = (slice_index_or (bodies_in self.old) place blank).content; payload = (slice_index_or (bodies_in self.old) place blank).payload } ∷ [] }
        ensures bodies { bodies_in self.new ≡ bodies_in self.old }
        ensures len { length (held self.new) ≡ length (held self.old) + 1 }
        ensures capacity { capacity_of self.new ≡ capacity_of self.old }
    {
        let next = Entry { subscriber, place };
        self.entries.push(&next);
        self.places.claim(place);
    }
}

impl<'a, C: Client> Outbox<C> for Shared<'a, C> {
    ghost waiting = { waiting_in C.Client.identity };

    ghost fits = { room_in };

    ghost places = { λ q. capacity_of q ∷ places_of q ∷ [] };

    ghost sound = { λ q. room-sound C.Client.identity (bodies_in q) q.entries (places_of q) q.some q.roomy };

    fn has_room(&self, count: usize, len: usize) -> bool {
        self.place_for(count, len).is_ok()
    }

    fn post(
        &mut self,
        content: Content,
        to: &[Subscriber<C>],
        payload: &[u8],
    ) -> Result<(), Refusal> {
        let place = self.place_for(to.len(), payload.len())?;
        self.places.write(place, content, payload);
        for subscriber in to {
            self.push(*subscriber, place);
        }
        Ok(())
    }

    fn take(&mut self, out: &mut [u8]) -> Result<Option<Message<C>>, Refusal> {
        // the two questions that every outbox asks here; what follows is this one's
        if out.len() < MAX_PAYLOAD {
            return Err(Refusal::BadBatch);
        }
        let Some(entry) = self.entries.first() else {
            return Ok(None);
        };
        let Entry { subscriber, place } = *entry;
        self.entries.drop_first();
        let (content, len) = self.places.read(place, out);
        self.places.release(place);
        Ok(Some(Message {
            subscriber,
            content,
            len,
        }))
    }
}
