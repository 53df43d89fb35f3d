// A content place: the content and payload of a batch, and how many entries that wait name it.
use outbox::{Content, Payload};

#[derive(Clone, Copy)]
pub struct Place {
    pub content: Content,
    pub payload: Payload,
    // 0 where the place is free: no Option, since the next content is written over the last one in place
    pub users: usize,
}
