// An outbox that keeps the content of a batch once, in content places and entries that the caller lends.
#![tactic(auto)]

mod entry;
mod place;
mod places;
mod shared;

pub use entry::Entry;
pub use place::Place;
pub use shared::Shared;
