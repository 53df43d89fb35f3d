// Why a call is refused: each refusal has a number and, where a client is told, a response code.
ghost use Rattle.protocol.specs.Refusals.{number_of, code_of, refusal_text};
ghost use Rattle.protocol.specs.declared.refusal.Refusal.TheVariants.{Unreadable};
ghost use Rattle.std.specs.Prelude.{◌≡◌, Some};

use crate::code::Code;
use crate::fault::Fault;
use std::error::Error;
use std::fmt;

#[derive(Clone, Copy, PartialEq, Eq, Debug)]
pub enum Refusal {
    // an answer buffer or a work list that is too short
    ShortBuffers,
    // too little memory for a part
    ShortMemory,
    // a store key, value or buffer out of bounds
    BadStoreRequest,
    // a new key at a store that holds as many as it can
    StoreFull,
    // a batch, payload or take buffer out of bounds
    BadBatch,
    // a batch that does not fit the outbox
    OutboxFull,
    // a payload or map that is too long
    TooLarge,
    // a map that cannot be read, and why
    Unreadable(Fault),
    // a value out of range, a needed key missing, a forbidden or changed one
    BadValue,
    // no such topic
    NoSuchTopic,
    // a topic without data
    HalfCreated,
    // a content format unlike the topic's
    WrongFormat,
    // a name that another topic has
    NameTaken,
    // messages that do not fit the outbox
    MessagesDoNotFit,
    // no room for a topic or a value more
    NoRoom,
    // a counter that has come to its end
    CounterSpent,
    // a stored value that the broker would not have written
    ForeignValue,
}

impl Refusal {
    // A match, and no numbers at the variants: one of them has a fault inside.
    pub fn number(self) -> u8
        ensures { result ≡ number_of self }
    {
        match self {
            Refusal::ShortBuffers => 1,
            Refusal::ShortMemory => 2,
            Refusal::BadStoreRequest => 3,
            Refusal::StoreFull => 4,
            Refusal::BadBatch => 5,
            Refusal::OutboxFull => 6,
            Refusal::TooLarge => 10,
            Refusal::Unreadable(_) => 11,
            Refusal::BadValue => 12,
            Refusal::NoSuchTopic => 20,
            Refusal::HalfCreated => 21,
            Refusal::WrongFormat => 22,
            Refusal::NameTaken => 23,
            Refusal::MessagesDoNotFit => 30,
            Refusal::NoRoom => 31,
            Refusal::CounterSpent => 32,
            Refusal::ForeignValue => 33,
        }
    }

    // The code that the client is answered with; none where the host alone is told. A match, as for the number.
    pub fn code(self) -> Option<Code>
        ensures { result ≡ code_of self }
    {
        match self {
            Refusal::ShortBuffers
            | Refusal::ShortMemory
            | Refusal::BadStoreRequest
            | Refusal::StoreFull
            | Refusal::BadBatch
            | Refusal::OutboxFull => None,
            Refusal::TooLarge => Some(Code::TooLarge),
            Refusal::Unreadable(_) | Refusal::BadValue => Some(Code::BadRequest),
            Refusal::NoSuchTopic | Refusal::HalfCreated => Some(Code::NotFound),
            Refusal::WrongFormat => Some(Code::UnsupportedFormat),
            Refusal::NameTaken => Some(Code::Forbidden),
            Refusal::MessagesDoNotFit | Refusal::NoRoom | Refusal::CounterSpent => Some(
                Code::Unavailable,
            ),
            Refusal::ForeignValue => Some(Code::InternalError),
        }
    }
}

impl From<Fault> for Refusal {
    ghost from_gives = { λ f r. r ≡ Unreadable f };

    fn from(fault: Fault) -> Refusal {
        Refusal::Unreadable(fault)
    }
}

// A refusal as it is told: its number, its code where it has one, and the fault inside.
impl fmt::Display for Refusal {
    ghost output = { λ r. Some (refusal_text r) };

    fn fmt<W: fmt::Write>(&self, f: &mut fmt::Formatter<W>) -> fmt::Result {
        let number = self.number();
        match (self.code(), *self) {
            (None, _) => write!(f, "{number}"),
            (Some(code), Refusal::Unreadable(fault)) => {
                let fault = fault.number();
                write!(f, "{number} {code} fault={fault}")
            }
            (Some(code), _) => write!(f, "{number} {code}"),
        }
    }
}

impl Error for Refusal {}
