// The table store keeps the contracts of a store.
ghost use Rattle.table_store.specs.Table.{table_capacity, table_held};
ghost use Rattle.std.specs.Prelude.{◌≡◌, ◌≤◌, [], length};
ghost use Rattle.std.proofs.Common.{subst};
ghost use Rattle.table_store.specs.Laws.{sound-map, length-map_le, two_places};
ghost use Rattle.table_store.specs.Places.{map_of};

use crate::entry::Entry;
use crate::place::Place;
use crate::table::{PLACES, TableStore};
use protocol::{Handle, Refusal};
use store::{Key, Store, VALUE_LIMIT};

impl TableStore {
    // A store that holds nothing.
    pub fn new() -> TableStore
        ensures { table_held result ≡ [] }
    {
        TableStore {
            places: [Place::free(); PLACES],
        }
    }
}

impl Default for TableStore {
    ghost is_default = { λ s. table_held s ≡ [] };

    fn default() -> TableStore {
        TableStore::new()
    }
}

impl Store for TableStore {
    ghost held = { table_held };

    ghost capacity = { λ _. table_capacity };

    ghost sound = { λ s. sound-map s.places s.tidy };

    ghost roomy = { λ _. two_places };

    ghost within = { λ s. subst (λ n. length (map_of s.places) ≤ n) s.count (length-map_le s.places s.tidy) };

    fn get(&self, key: Key, out: &mut [u8]) -> Result<Option<usize>, Refusal> {
        // the two questions that every store asks here; what follows is this one's
        key.check()?;
        if out.len() < VALUE_LIMIT {
            return Err(Refusal::BadStoreRequest);
        }
        // A match, since and_then would need a closure with a contract: it writes to the buffer.
        match self.find(key) {
            Some(i) => Ok(self.places[i].copy_to(out)),
            None => Ok(None),
        }
    }

    fn is_full_for(&self, key: Key) -> bool {
        key.is_proper() && self.place_for(key).is_none()
    }

    fn put(&mut self, key: Key, value: &[u8]) -> Result<(), Refusal> {
        let entry = Entry::new(key, value)?;
        let place = self.place_for(key).ok_or(Refusal::StoreFull)?;
        self.places[place].hold(entry, value);
        Ok(())
    }

    fn remove(&mut self, key: Key) -> Result<bool, Refusal> {
        key.check()?;
        match self.find(key) {
            Some(i) => {
                self.places[i].held = None;
                Ok(true)
            }
            None => Ok(false),
        }
    }

    fn next(&self, after: Handle) -> Option<Handle> {
        self.places
            .iter()
            .filter_map(|place| place.topic_above(after))
            .min()
    }
}
