// Response codes of CoAP (RFC 7252, section 12.1.2), by name.
ghost use Rattle.protocol.specs.Codes.{class_of, code_text, detail_of};
ghost use Rattle.std.specs.Prelude.{◌≡◌, Some};

use std::fmt;

// Each code is one byte of a message: its class in the first three bits, its detail in the other five.
#[derive(Clone, Copy, PartialEq, Eq, Debug)]
pub enum Code {
    Created = 0x41,
    Deleted = 0x42,
    Changed = 0x44,
    Content = 0x45,
    BadRequest = 0x80,
    Forbidden = 0x83,
    NotFound = 0x84,
    TooLarge = 0x8d,
    UnsupportedFormat = 0x8f,
    InternalError = 0xa0,
    Unavailable = 0xa3,
}

impl Code {
    // The digit before the point.
    pub fn class(self) -> u8
        ensures { result ≡ class_of self }
    {
        self as u8 / 32
    }

    // The two digits behind the point, as a number.
    pub fn detail(self) -> u8
        ensures { result ≡ detail_of self }
    {
        self as u8 % 32
    }
}

// A code as the standard writes it: class, point, detail in two digits.
impl fmt::Display for Code {
    ghost output = { λ c. Some (code_text c) };

    fn fmt<W: fmt::Write>(&self, f: &mut fmt::Formatter<W>) -> fmt::Result {
        let class = self.class();
        let detail = self.detail();
        write!(f, "{class}.{detail:02}")
    }
}
