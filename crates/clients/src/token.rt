// A token: 0 to 8 bytes that a client chose, kept as one number with zeros behind its length.
ghost use Rattle.std.specs.Prelude.{◌≡◌, ℕ, ◌-◌, ◌%◌, ◌^◌, ◌≤◌};

mod bytes;

#[derive(Clone, Copy, PartialEq, Eq, Debug)]
pub struct Token {
    len: u8,
    bits: u64,
    ghost short: { len ≤ 8 },
    ghost zeros: { bits % 256 ^ (8 - len) ≡ 0 },
}
