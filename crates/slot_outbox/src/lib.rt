// An outbox in slots that the caller lends: each message is kept with a payload of its own.
#![tactic(auto)]

mod slot;
mod slots;

pub use slot::Slot;
pub use slots::Slots;
