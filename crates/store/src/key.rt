// The keys of a store.
ghost use Rattle.store.specs.Held.{proper};
ghost use Rattle.store.specs.Scans.{topic_above};
ghost use Rattle.protocol.specs.declared.refusal.Refusal.TheVariants.{BadStoreRequest};
ghost use Rattle.std.specs.Prelude.{◌≡◌, is_ok, IfErr};

use protocol::{Handle, Refusal};

// A topic's handle and a part: 0 for its properties, 1 for its data.
#[derive(Clone, Copy, PartialEq, Eq, Debug)]
pub struct Key {
    pub handle: Handle,
    // a number and no enum, since a part above 1 is refused by rule
    pub part: u8,
}

impl Key {
    // Whether a store accepts the key: the handle is at least 1, and the part 0 or 1.
    pub fn is_proper(self) -> bool
        ensures { result ≡ proper self }
    {
        self.handle > Handle(0) && self.part < 2
    }

    // Refuses a key that a store does not accept.
    pub fn check(self) -> Result<(), Refusal>
        ensures ok { is_ok result ≡ proper self }
        ensures err { IfErr result (λ r. r ≡ BadStoreRequest) }
    {
        if self.is_proper() {
            Ok(())
        } else {
            Err(Refusal::BadStoreRequest)
        }
    }

    // The handle of a key of properties, if it is above the given one.
    pub fn topic_above(self, after: Handle) -> Option<Handle>
        ensures { result ≡ topic_above self after }
    {
        (self.part == 0 && self.handle > after).then_some(self.handle)
    }
}
