// The type of log stores, and how one is made.
ghost use Rattle.std.specs.Prelude.{◌≡◌, ◌/◌, ◌^◌, ◌<◌, ◌≤◌, not, ◌&&◌, [], length, is_ok, IfOk, IfErr, MatchResult, nat_le};
ghost use Rattle.protocol.specs.declared.refusal.Refusal.TheVariants.{ShortMemory};
ghost use Rattle.log_store.specs.Format.{entries};
ghost use Rattle.log_store.specs.Logs.{meaning};
ghost use Rattle.log_store.specs.Memories.{contents, size};

use crate::memory::{ENTRY_LIMIT, Memory};
use protocol::Refusal;

// A store in the caller's bytes: a log, and how many keys have a value.
#[derive(Drop)]
pub struct LogStore<'a> {
    pub(crate) memory: Memory<'a>,
    pub(crate) count: usize,
    ghost counted: { count ≡ length (meaning (entries (contents memory))) },
    ghost bounded: { count ≤ size memory / 583 },
    ghost roomy: { 1166 ≤ size memory },
}

// Refuses memory that has no room for two entries.
pub(crate) fn room_for_two(memory: &[u8]) -> Result<(), Refusal>
    ensures test { is_ok result ≡ nat_le 1166 (length memory.now) }
    ensures refused { IfErr result (λ e. e ≡ ShortMemory) }
{
    if memory.len() < 2 * ENTRY_LIMIT {
        return Err(Refusal::ShortMemory);
    }
    Ok(())
}

impl<'a> LogStore<'a> {
    ghost use Rattle.log_store.specs.Log.{log_capacity, log_held};

    // A store in the caller's bytes, empty whatever they hold; less than room for two entries is refused.
    pub fn new(bytes: &'a mut [u8]) -> Result<LogStore<'a>, Refusal>
        ensures test { is_ok result ≡ nat_le 1166 (length bytes.old) }
        ensures answer { MatchResult result (λ s. (log_held s ≡ []) × (log_capacity s ≡ length bytes.old / 583)) (λ e. e ≡ ShortMemory) }
    {
        room_for_two(bytes)?;
        Ok(LogStore::of(bytes))
    }

    // A store in bytes that are enough.
    pub(crate) fn of(bytes: &'a mut [u8]) -> LogStore<'a>
        requires { 1166 ≤ length bytes.old }
        ensures after { log_held result ≡ [] }
        ensures capacity { log_capacity result ≡ length bytes.old / 583 }
    {
        LogStore {
            memory: Memory::new(bytes),
            count: 0,
        }
    }

    // Whether a key finds no place: it is not held, and there are as many keys as can be.
    pub(crate) fn has_no_place(&self, held: bool) -> bool
        ensures answer { result ≡ (not held && nat_le (log_capacity self.now) (length (log_held self.now))) }
        ensures fits { log_capacity self.now < 2 ^ 64 }
    {
        self.count >= self.memory.capacity() && !held
    }
}
