// The trait of outboxes: every method is an equality on the list of waiting notes.
ghost use Rattle.std.specs.Prelude.{◌≡◌, ℕ, Bool, false, List, [], ◌++◌, length, is_ok, if◌then◌else◌, nat_le};
ghost use Rattle.outbox.specs.Notes.{Note, Sound, proper_batch, notes_of};
ghost use Rattle.outbox.specs.Answers.{post_answer, take_answer, take_len, take_buffer, rest, said, said_len, taken};

use crate::limits::MAX_PAYLOAD;
use crate::message::{Content, Message};
use clients::{Client, Subscriber};
use protocol::{MAX_SUBSCRIBERS, Refusal};

// Whether a batch has 1 to 100 subscribers and a payload of at most 256 bytes.
// The two numbers stay apart: each caller has the two lengths, and would make a struct of them only to ask.
pub fn is_proper(count: usize, len: usize) -> bool
    ensures { result ≡ proper_batch count len }
{
    (1..=MAX_SUBSCRIBERS).contains(&count) && len <= MAX_PAYLOAD
}

// What a batch is answered where so many messages more have a place: a bad size is refused before one that does not fit.
pub fn check_batch(count: usize, len: usize, free: usize) -> Result<(), Refusal>
    ensures { result ≡ post_answer (λ n _. nat_le n free) count len }
{
    if !is_proper(count, len) {
        return Err(Refusal::BadBatch);
    }
    if count > free {
        return Err(Refusal::OutboxFull);
    }
    Ok(())
}

pub trait Outbox<C: Client> {
    // the notes that wait, the oldest first
    ghost waiting: { Self → List Note };

    // whether a batch for so many subscribers, with a payload of so many bytes, fits
    ghost fits: { Self → ℕ → ℕ → Bool };

    // how many places of each kind it has in memory; none are told where an outbox does not say
    ghost places: { Self → List ℕ } = { λ _. [] };

    // Whether a batch for so many subscribers, with a payload of so many bytes, fits.
    fn has_room(&self, count: usize, len: usize) -> bool
        ensures { result ≡ fits self.now count len };

    // Puts a batch behind what waits, one message for each subscriber in their order, or refuses it whole.
    fn post(
        &mut self,
        content: Content,
        to: &[Subscriber<C>],
        payload: &[u8],
    ) -> Result<(), Refusal>
        ensures answer { result ≡ post_answer (fits self.old) (length to.now) (length payload.now) }
        ensures after { waiting self.new ≡ (if is_ok result then waiting self.old ++ notes_of C.Client.identity content payload.now to.now else waiting self.old) }
        ensures same { is_ok result ≡ false → (n l : ℕ) → fits self.new n l ≡ fits self.old n l }
        ensures places { places self.new ≡ places self.old };

    // Removes the oldest message, if one waits, and writes its payload to the front of the buffer.
    fn take(&mut self, out: &mut [u8]) -> Result<Option<Message<C>>, Refusal>
        ensures answer { said C.Client.identity result out.new ≡ take_answer (waiting self.old) (length out.old) }
        ensures len { said_len result ≡ take_len (waiting self.old) (length out.old) }
        ensures buffer { out.new ≡ take_buffer (waiting self.old) out.old }
        ensures after { waiting self.new ≡ (if taken result then rest (waiting self.old) else waiting self.old) }
        ensures same { taken result ≡ false → (n l : ℕ) → fits self.new n l ≡ fits self.old n l }
        ensures places { places self.new ≡ places self.old };

    ghost sound: { (o : Self) → Sound (waiting o) (fits o) };
}
