// The head of a data item.
ghost use Rattle.std.specs.Prelude.{◌≡◌, ◌/◌};
ghost use Rattle.maps.specs.Heads.{major_number};

// The major types of data items, by their numbers.
#[derive(Clone, Copy, PartialEq, Eq, Debug)]
pub enum Major {
    Unsigned = 0,
    Negative = 1,
    Bytes = 2,
    Text = 3,
    Array = 4,
    Map = 5,
    Tag = 6,
    Simple = 7,
}

impl Major {
    // The major type in the first three bits of a head's first byte. No TryFrom: every byte has one.
    pub(crate) fn of_first(first: u8) -> Major
        ensures { major_number result ≡ first / 32 }
    {
        match first / 32 {
            0 => Major::Unsigned,
            1 => Major::Negative,
            2 => Major::Bytes,
            3 => Major::Text,
            4 => Major::Array,
            5 => Major::Map,
            6 => Major::Tag,
            _ => Major::Simple,
        }
    }
}

// The major type and the argument.
#[derive(Clone, Copy, PartialEq, Eq, Debug)]
pub struct Head {
    pub major: Major,
    pub argument: u64,
}
