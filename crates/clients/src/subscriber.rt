// A subscriber: a client with a token.
use crate::token::Token;

#[derive(Clone, Copy, PartialEq, Eq, Debug)]
pub struct Subscriber<C> {
    pub client: C,
    pub token: Token,
}
