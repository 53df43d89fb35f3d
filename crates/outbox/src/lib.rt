// What an outbox is: a queue of messages for subscribers, filled by whole batches, for any kind of memory behind it.
#![tactic(auto)]

mod limits;
mod message;
mod outbox;
mod payload;
mod ring;

pub use limits::MAX_PAYLOAD;
pub use message::{Content, Message};
pub use outbox::{Outbox, check_batch, is_proper};
pub use payload::Payload;
pub use protocol::MAX_SUBSCRIBERS;
pub use ring::{Fill, Ring};
