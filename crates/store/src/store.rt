// The trait of stores: every method is an equality on the map that the store means.
ghost use Rattle.std.specs.Prelude.{◌≡◌, ℕ, ◌≤◌, List, length, is_ok, if◌then◌else◌};
ghost use Rattle.std.specs.Option.{option_map};
ghost use Rattle.store.specs.Held.{Entry, Sound, full, get_answer, get_buffer, next as next_of, put as put_in, put_answer, remove as remove_from, remove_answer};

use crate::key::Key;
use protocol::{Handle, Refusal};

// The largest value that a store keeps, in bytes; a get buffer has at least as many.
pub const VALUE_LIMIT: usize = 576;

pub trait Store {
    // the map, as entries in rising order of their keys
    ghost held: { Self → List Entry };

    // how many keys it can hold
    ghost capacity: { Self → ℕ };

    // Copies the key's value to the front of the buffer, and tells its length, if it has one.
    fn get(&self, key: Key, out: &mut [u8]) -> Result<Option<usize>, Refusal>
        ensures answer { result ≡ get_answer (held self.now) key (length out.old) }
        ensures buffer { out.new ≡ get_buffer (held self.now) key out.old };

    // Whether a put of this key would find the store full.
    fn is_full_for(&self, key: Key) -> bool
        ensures { result ≡ full (held self.now) (capacity self.now) key };

    // Sets the key to a value.
    fn put(&mut self, key: Key, value: &[u8]) -> Result<(), Refusal>
        ensures answer { result ≡ put_answer (held self.old) (capacity self.old) key value.now }
        ensures after { held self.new ≡ (if is_ok result then put_in (held self.old) key value.now else held self.old) }
        ensures capacity { capacity self.new ≡ capacity self.old };

    // Clears the key, and tells whether it had a value.
    fn remove(&mut self, key: Key) -> Result<bool, Refusal>
        ensures answer { result ≡ remove_answer (held self.old) key }
        ensures after { held self.new ≡ (if is_ok result then remove_from (held self.old) key else held self.old) }
        ensures capacity { capacity self.new ≡ capacity self.old };

    // The lowest handle above the given one that has properties.
    fn next(&self, after: Handle) -> Option<Handle>
        ensures { option_map (λ h. h.0) result ≡ next_of (held self.now) after.0 };

    ghost sound: { (s : Self) → Sound (held s) };

    ghost roomy: { (s : Self) → 2 ≤ capacity s };

    ghost within: { (s : Self) → length (held s) ≤ capacity s };
}
