// Tokens from bytes, back to bytes, and compared.
ghost use Rattle.std.specs.Prelude.{◌≡◌, ℕ, ◌-◌, ◌≤◌, ◌++◌, length, replicate, is_ok, Decides, MatchResult, nat_le};
ghost use Rattle.clients.specs.Subs.{token_bytes};
ghost use Rattle.protocol.specs.declared.refusal.Refusal.TheVariants.{BadValue};

use super::Token;
use protocol::Refusal;

// The bytes in front, and zeros behind them.
fn padded(bytes: &[u8]) -> [u8; 8]
    requires { length bytes.now ≤ 8 }
    ensures { result ≡ bytes.now ++ replicate (8 - length bytes.now) 0 }
{
    let mut all = [0; 8];
    all[0..bytes.len()].copy_from_slice(bytes);
    all
}

impl Token {
    // The token of these bytes; more than eight are refused.
    pub fn new(bytes: &[u8]) -> Result<Token, Refusal>
        ensures test { is_ok result ≡ nat_le (length bytes.now) 8 }
        ensures value { MatchResult result (λ t. token_bytes t ≡ bytes.now) (λ e. e ≡ BadValue) }
    {
        if bytes.len() > 8 {
            return Err(Refusal::BadValue);
        }
        let bits = u64::from_be_bytes(padded(bytes));
        Ok(Token {
            len: bytes.len() as u8,
            bits,
        })
    }

    // How many bytes the token has.
    pub fn len(&self) -> usize
        ensures { result ≡ length (token_bytes self.now) }
    {
        usize::from(self.len)
    }

    // The token's bytes in front, and zeros behind them.
    pub fn bytes(&self) -> [u8; 8]
        ensures { result ≡ token_bytes self.now ++ replicate (8 - length (token_bytes self.now)) 0 }
    {
        self.bits.to_be_bytes()
    }

    // Whether both are the same token: exactly if their bytes are equal.
    pub fn same(&self, other: &Token) -> bool
        ensures { Decides result (token_bytes self.now ≡ token_bytes other.now) }
    {
        // field by field: a proof knows a number's range where the number itself is read, and not from a derived ==
        self.len == other.len && self.bits == other.bits
    }
}
