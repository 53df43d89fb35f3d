// What can be wrong with the bytes of a property map, each fault with its number.
ghost use Rattle.protocol.specs.Refusals.{fault_number};
ghost use Rattle.std.specs.Prelude.{◌≡◌};

#[derive(Clone, Copy, PartialEq, Eq, Debug)]
pub enum Fault {
    // the bytes end inside an item
    Ends = 1,
    // an item of another type or tag, or additional information 28 to 31
    WrongType = 2,
    // a key above 7
    UnknownKey = 3,
    // a key twice
    RepeatedKey = 4,
    // bytes after the map
    Trailing = 5,
}

impl Fault {
    pub fn number(self) -> u8
        ensures { result ≡ fault_number self }
    {
        self as u8
    }
}
