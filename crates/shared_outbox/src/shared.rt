// The shared outbox: a ring of entries, each of which names the content place of its batch.
ghost use Rattle.std.specs.Prelude.{◌≡◌, ℕ, ◌≤◌, length};
ghost use Rattle.shared_outbox.specs.Entries.{uses};
ghost use Rattle.shared_outbox.specs.Places.{users_at};

use crate::entry::Entry;
use crate::places::Places;
use outbox::Ring;

pub mod queue;

#[derive(Drop)]
pub struct Shared<'a, C> {
    places: Places<'a>,
    entries: Ring<'a, Entry<C>>,
    ghost some: { 1 ≤ length places },
    ghost roomy: { 100 ≤ entries.capacity },
    ghost within: { length entries.items ≤ entries.capacity },
    ghost counted: { (p : ℕ) → uses p entries.items ≡ users_at places p },
}
