// Writing and reading a payload: only its own bytes are copied.
ghost use Rattle.std.specs.Prelude.{◌≡◌, [], ◌++◌, length, take, drop};
ghost use Rattle.outbox.specs.Payloads.{bytes_of};

use super::Payload;
use crate::limits::MAX_PAYLOAD;

impl Payload {
    // A payload of no bytes.
    pub fn empty() -> Payload
        ensures { bytes_of result ≡ [] }
    {
        Payload {
            bytes: [0; MAX_PAYLOAD],
            len: 0,
        }
    }

    // Replaces the payload by these bytes; past 256 they are left out.
    pub fn set(&mut self, bytes: &[u8])
        ensures { bytes_of self.new ≡ take 256 bytes.now }
    {
        let n = bytes.len().min(MAX_PAYLOAD);
        self.bytes[0..n].copy_from_slice(&bytes[0..n]);
        self.len = n;
    }

    // Writes the payload to the front of the buffer, as far as it has room, and tells how many bytes it wrote.
    pub fn copy_to(&self, out: &mut [u8]) -> usize
        ensures answer { result ≡ length (take (length out.old) (bytes_of self.now)) }
        ensures buffer { out.new ≡ take (length out.old) (bytes_of self.now) ++ drop (length (bytes_of self.now)) out.old }
    {
        let n = self.len.min(out.len());
        out[0..n].copy_from_slice(&self.bytes[0..n]);
        n
    }
}
