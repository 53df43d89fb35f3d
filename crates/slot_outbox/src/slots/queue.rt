// Making a slot outbox, and its queue.
ghost use Rattle.std.specs.Prelude.{◌≡◌, ◌+◌, ◌<◌, ◌≤◌, [], ◌∷◌, ◌++◌, length, is_ok, IfOk, MatchResult, nat_le};
ghost use Rattle.protocol.specs.declared.refusal.Refusal.TheVariants.{ShortMemory};
ghost use Rattle.clients.specs.Subs.{sub_of};
ghost use Rattle.outbox.specs.Answers.{post_answer};
ghost use Rattle.slot_outbox.specs.Held.{capacity_of, held, waiting_in, room_in};
ghost use Rattle.slot_outbox.specs.Laws.{room-sound};

use super::Slots;
use crate::slot::{Sent, Slot};
use clients::{Client, Subscriber};
use outbox::{Content, MAX_PAYLOAD, MAX_SUBSCRIBERS, Message, Outbox, Ring, check_batch};
use protocol::Refusal;

impl<'a, C: Client> Slots<'a, C> {
    // An outbox over these slots with nothing waiting; fewer than 100 are refused.
    pub fn new(slots: &'a mut [Slot<C>]) -> Result<Slots<'a, C>, Refusal>
        ensures answer { is_ok result ≡ nat_le 100 (length slots.old) }
        ensures after { MatchResult result (λ q. waiting_in C.Client.identity q ≡ []) (λ e. e ≡ ShortMemory) }
        ensures capacity { IfOk result (λ q. capacity_of q ≡ length slots.old) }
    {
        if slots.len() < MAX_SUBSCRIBERS {
            return Err(Refusal::ShortMemory);
        }
        Ok(Slots {
            ring: Ring::new(slots),
        })
    }

    // What a post of a batch for so many subscribers, with a payload of so many bytes, answers.
    fn answer(&self, count: usize, len: usize) -> Result<(), Refusal>
        ensures { result ≡ post_answer (room_in self.now) count len }
    {
        check_batch(count, len, self.ring.free())
    }

    // Puts a message behind what waits.
    fn push(&mut self, subscriber: Subscriber<C>, content: Content, payload: &[u8])
        requires room { length (held self.old) < capacity_of self.old }
        requires short { length payload.now ≤ 256 }
        ensures after { waiting_in C.Client.identity self.new ≡ waiting_in C.Client.identity self.old ++ record { to = sub_of C.Client.identity subscriber; content = content; payload = payload.now } ∷ [] }
        ensures len { length (held self.new) ≡ length (held self.old) + 1 }
        ensures capacity { capacity_of self.new ≡ capacity_of self.old }
    {
        self.ring.push(&Sent {
            subscriber,
            content,
            payload,
        });
    }
}

impl<'a, C: Client> Outbox<C> for Slots<'a, C> {
    ghost waiting = { waiting_in C.Client.identity };

    ghost fits = { room_in };

    ghost places = { λ q. capacity_of q ∷ [] };

    ghost sound = { λ q. room-sound C.Client.identity q.ring q.roomy };

    fn has_room(&self, count: usize, len: usize) -> bool {
        self.answer(count, len).is_ok()
    }

    fn post(
        &mut self,
        content: Content,
        to: &[Subscriber<C>],
        payload: &[u8],
    ) -> Result<(), Refusal> {
        self.answer(to.len(), payload.len())?;
        for subscriber in to {
            self.push(*subscriber, content, payload);
        }
        Ok(())
    }

    fn take(&mut self, out: &mut [u8]) -> Result<Option<Message<C>>, Refusal> {
        // the two questions that every outbox asks here; what follows is this one's
        if out.len() < MAX_PAYLOAD {
            return Err(Refusal::BadBatch);
        }
        let Some(slot) = self.ring.first() else {
            return Ok(None);
        };
        let message = slot.read(out);
        self.ring.drop_first();
        Ok(Some(message))
    }
}
