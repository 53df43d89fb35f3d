// The slot outbox: a ring of messages in the caller's slots.
ghost use Rattle.std.specs.Prelude.{◌≤◌, length};

use crate::slot::Slot;
use outbox::Ring;

pub mod queue;

#[derive(Drop)]
pub struct Slots<'a, C> {
    ring: Ring<'a, Slot<C>>,
    ghost roomy: { 100 ≤ ring.capacity },
    ghost within: { length ring.items ≤ ring.capacity },
}
