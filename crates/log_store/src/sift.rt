// Squeezes entries out of a log, each byte that stays moved at most twice.
ghost use Rattle.std.specs.Prelude.{◌≡◌, ◌≤◌, Bool, List, [], length, take};
ghost use Rattle.store.specs.declared.key.Key.{Key};
ghost use Rattle.store.specs.Held.{Entry};
ghost use Rattle.log_store.specs.declared.entries.Entries.{Entries};
ghost use Rattle.log_store.specs.Format.{Log, encoded, entries};
ghost use Rattle.log_store.specs.Logs.{kept};

use crate::entries::Entries;
use crate::trailer::TRAILER;
use store::Key;

// Squeezes out the entries that do not stay, and tells what is left in bytes. `stays` is asked of each key, beside the newer entries that stay.
// What stays is gathered at the end of the bytes, from the newest entry on, and is then moved to the front.
pub(crate) fn sift<F: Fn(Entries<'_>, Key) -> bool>(bytes: &mut [u8], stays: F) -> usize
    ghost test: { List Entry → Key → Bool }
    requires log { Log bytes.old }
    requires callable { F.IsAlwaysCallable stays }
    requires computes { (newer : Entries) (key : Key) (b : Bool) → F.post stays newer key b → b ≡ test (entries newer.rest.now) key }
    ensures len { result ≤ length bytes.new }
    ensures after { take result bytes.new ≡ encoded (kept test [] (entries bytes.old)) }
{
    // Two places in the bytes and no iterator: entries are moved under the walk, which an iterator's borrow forbids.
    let mut end = bytes.len();
    let mut top = bytes.len();
    while let Some(entry) = Entries::of(&bytes[..end]).next() {
        let key = entry.key;
        let size = entry.value.len() + TRAILER;
        let from = end - size;
        if stays(Entries::of(&bytes[top..]), key) {
            top -= size;
            bytes.copy_within(from..end, top);
        }
        end = from;
    }
    bytes.copy_within(top.., 0);
    bytes.len() - top
}
