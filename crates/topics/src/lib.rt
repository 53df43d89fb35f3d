// Topics: from the map that a client sends to the properties that a topic has, and back from a stored value.
#![tactic(auto)]

mod admission;
mod amendment;

pub use admission::new_topic;
pub use amendment::Amendment;
