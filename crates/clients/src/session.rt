// Clients that a host knows by a 32-bit session number.
ghost use Rattle.protocol.specs.Bytes.{be_bytes};

use crate::client::Client;

#[derive(Clone, Copy, PartialEq, Eq, Debug)]
pub struct Session(pub u32);

impl Client for Session {
    ghost identity = { λ s. be_bytes 4 s.0 };

    fn same(&self, other: &Session) -> bool {
        // field by field: a proof knows a number's range where the number itself is read, and not from a derived ==
        self.0 == other.0
    }
}
