// A slot: the place of one message, with its payload.
ghost use Rattle.std.specs.Prelude.{◌≡◌, ◌≤◌, length, take};
ghost use Rattle.clients.specs.Subs.{sub_of};
ghost use Rattle.outbox.specs.Answers.{Gives};
ghost use Rattle.slot_outbox.specs.Slots.{note_in};

use clients::{Client, Subscriber};
use outbox::{Content, Fill, Message, Payload};

#[derive(Clone, Copy)]
pub struct Slot<C> {
    pub subscriber: Subscriber<C>,
    pub content: Content,
    pub payload: Payload,
}

impl<C: Client> Slot<C> {
    // Writes the message's payload to the front of the buffer, and gives the rest of it.
    pub(crate) fn read(&self, out: &mut [u8]) -> Message<C>
        requires { 256 ≤ length out.old }
        ensures { Gives C.Client.identity (note_in C.Client.identity self.now) result out.old out.new }
    {
        Message {
            subscriber: self.subscriber,
            content: self.content,
            len: self.payload.copy_to(out),
        }
    }
}

// A message as it is put into a slot; of its payload the first 256 bytes are kept.
#[derive(Clone, Copy)]
pub(crate) struct Sent<'a, C> {
    pub(crate) subscriber: Subscriber<C>,
    pub(crate) content: Content,
    pub(crate) payload: &'a [u8],
}

impl<C: Client> Fill<Slot<C>> for Sent<'_, C> {
    ghost fills = { λ s _ after. note_in C.Client.identity after ≡ record { to = sub_of C.Client.identity s.subscriber; content = s.content; payload = take 256 s.payload.now } };

    fn fill(&self, place: &mut Slot<C>) {
        place.subscriber = self.subscriber;
        place.content = self.content;
        place.payload.set(self.payload);
    }
}
