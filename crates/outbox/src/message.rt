// What a message says beside its payload, which goes to a buffer that the taker lends.
use clients::Subscriber;
use protocol::{Code, Handle, Number};

// What all messages of a batch say: the topic, the response code, the publication number and the content format.
#[derive(Clone, Copy, PartialEq, Eq, Debug)]
pub struct Content {
    pub handle: Handle,
    pub code: Code,
    pub number: Number,
    pub format: u16,
}

// A message taken from an outbox: for whom, what, and how many bytes of payload.
#[derive(Clone, Copy, PartialEq, Eq, Debug)]
pub struct Message<C> {
    pub subscriber: Subscriber<C>,
    pub content: Content,
    // the payload itself lies in the buffer that the taker lent
    pub len: usize,
}
