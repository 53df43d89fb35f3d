// A topic's number and a publication's number, which never stand for one another, and the address of a topic's data.
ghost use Rattle.std.specs.Prelude.{◌≡◌, ◌%◌};
ghost use Rattle.protocol.specs.Addresses.{data_address, hex_digit};

// A topic's number, counted from 1 and never used again.
#[derive(Clone, Copy, PartialEq, Eq, PartialOrd, Ord, Debug)]
pub struct Handle(pub u32);

// The number of an accepted publish, counted from 1 over the whole broker; 0 in a final message.
#[derive(Clone, Copy, PartialEq, Eq, PartialOrd, Ord, Debug)]
pub struct Number(pub u32);

// The last hexadecimal digit of a number, in lowercase.
pub fn hex_digit(n: u32) -> u8
    ensures { result ≡ hex_digit (n % 16) }
{
    let digit = (n % 16) as u8;
    if digit < 10 {
        b'0' + digit
    } else {
        b'a' + (digit - 10)
    }
}

// Where the topic's data is found: "/ps/data/" and the handle as eight hexadecimal digits.
pub fn data_address(handle: Handle) -> [u8; 17]
    ensures { result ≡ data_address handle.0 }
{
    let h = handle.0;
    [
        b'/',
        b'p',
        b's',
        b'/',
        b'd',
        b'a',
        b't',
        b'a',
        b'/',
        hex_digit(h / 0x1000_0000),
        hex_digit(h / 0x100_0000),
        hex_digit(h / 0x10_0000),
        hex_digit(h / 0x1_0000),
        hex_digit(h / 0x1000),
        hex_digit(h / 0x100),
        hex_digit(h / 0x10),
        hex_digit(h),
    ]
}
