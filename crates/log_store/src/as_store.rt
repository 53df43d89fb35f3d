// The log store as a store: its map is what the entries of its log mean.
ghost use Rattle.std.specs.Prelude.{◌/◌, length};
ghost use Rattle.log_store.specs.Format.{entries};
ghost use Rattle.log_store.specs.Logs.{meaning};
ghost use Rattle.log_store.specs.Memories.{contents, size};
ghost use Rattle.log_store.specs.Log.{log_capacity, log_held};
ghost use Rattle.log_store.specs.Laws.{sound-meaning, two_entries, within_of};

use crate::held::LogStore;
use protocol::{Handle, Refusal};
use store::{Key, Store, VALUE_LIMIT};

impl Store for LogStore<'_> {
    ghost held = { log_held };

    ghost capacity = { log_capacity };

    ghost sound = { λ s. sound-meaning (entries (contents s.memory)) s.memory.log.fits };

    ghost roomy = { λ s. two_entries (size s.memory) s.roomy };

    ghost within = { λ s. within_of s.count (length (meaning (entries (contents s.memory)))) (size s.memory / 583) s.counted s.bounded };

    fn get(&self, key: Key, out: &mut [u8]) -> Result<Option<usize>, Refusal> {
        // the two questions that every store asks here; what follows is this one's
        key.check()?;
        if out.len() < VALUE_LIMIT {
            return Err(Refusal::BadStoreRequest);
        }
        Ok(self.memory.get(key, out))
    }

    fn is_full_for(&self, key: Key) -> bool {
        key.is_proper() && self.has_no_place(self.memory.holds(key))
    }

    fn put(&mut self, key: Key, value: &[u8]) -> Result<(), Refusal> {
        key.check()?;
        if value.len() > VALUE_LIMIT {
            return Err(Refusal::BadStoreRequest);
        }
        let held = self.memory.holds(key);
        if self.has_no_place(held) {
            return Err(Refusal::StoreFull);
        }
        self.memory.put(key, value);
        self.count += usize::from(!held);
        Ok(())
    }

    fn remove(&mut self, key: Key) -> Result<bool, Refusal> {
        key.check()?;
        let held = self.memory.holds(key);
        if held {
            self.memory.remove(key);
            self.count -= 1;
        }
        Ok(held)
    }

    fn next(&self, after: Handle) -> Option<Handle> {
        self.memory.next(after)
    }
}
