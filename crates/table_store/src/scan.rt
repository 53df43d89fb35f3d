// Where a key has its place in the table, and where it may be put.
ghost use Rattle.std.specs.Prelude.{◌≡◌, not, ◌||◌, is_none, is_some, position, IfSome};
ghost use Rattle.table_store.specs.Places.{Fit, all_held, holds, some_holds};

use crate::table::TableStore;
use store::Key;

impl TableStore {
    // The place that is held for the key.
    pub(crate) fn find(&self, key: Key) -> Option<usize>
        ensures { result ≡ position (λ p. holds p key) self.now.places }
    {
        self.places.iter().position(|place| place.is_held_for(key))
    }

    // The first place that is free.
    fn free(&self) -> Option<usize>
        ensures { result ≡ position (λ p. is_none p.held) self.now.places }
    {
        self.places.iter().position(|place| place.held.is_none())
    }

    // The place for a put of the key: its own or else a free one.
    pub(crate) fn place_for(&self, key: Key) -> Option<usize>
        ensures answer { is_some result ≡ (some_holds self.now.places key || not (all_held self.now.places)) }
        ensures place { IfSome result (λ i. Fit self.now.places key i) }
    {
        self.find(key).or_else(|| self.free())
    }
}
