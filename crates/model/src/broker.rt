// What the broker itself keeps: how far it has counted.
ghost use Rattle.std.specs.Prelude.{◌≡◌};

use protocol::{Handle, Number};

// The last handle given, and the last publication number given.
#[derive(Clone, Copy, PartialEq, Eq, Debug)]
pub struct Broker {
    pub handles: Handle,
    pub numbers: Number,
}

impl Broker {
    // A broker that has given neither a handle nor a number.
    pub fn new() -> Broker
        ensures { result ≡ record { handles = record { 0 = 0 }; numbers = record { 0 = 0 } } }
    {
        Broker {
            handles: Handle(0),
            numbers: Number(0),
        }
    }
}
