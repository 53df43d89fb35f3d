// An entry of the table: a key that the store accepts, and how long its value is.
ghost use Rattle.std.specs.Prelude.{◌≡◌, true, false, IfErr, IfOk};
ghost use Rattle.protocol.specs.declared.refusal.Refusal.TheVariants.{BadStoreRequest};
ghost use Rattle.table_store.specs.Places.{fits, kept};

use protocol::Refusal;
use store::{Key, VALUE_LIMIT};

#[derive(Clone, Copy)]
pub(crate) struct Entry {
    pub(crate) key: Key,
    pub(crate) len: usize,
}

impl Entry {
    // The entry, if the store accepts the key and the value is within the limit.
    pub(crate) fn new(key: Key, bytes: &[u8]) -> Result<Entry, Refusal>
        ensures ok { IfOk result (λ e. (e ≡ kept key bytes.now) × (fits e ≡ true)) }
        ensures err { IfErr result (λ r. (r ≡ BadStoreRequest) × (fits (kept key bytes.now) ≡ false)) }
    {
        key.check()?;
        if bytes.len() > VALUE_LIMIT {
            return Err(Refusal::BadStoreRequest);
        }
        Ok(Entry {
            key,
            len: bytes.len(),
        })
    }
}
