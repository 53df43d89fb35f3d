// The step of a scan over keys for the next topic.
ghost use Rattle.std.specs.Option.{option_map};
ghost use Rattle.store.specs.Scans.{candidate, lower as lower_of};
ghost use Rattle.std.specs.Prelude.{◌≡◌};

use crate::key::Key;
use protocol::Handle;

// The lower of the handle so far and that of a key, if this is of properties and above the given handle.
pub fn lower(best: Option<Handle>, key: Key, after: Handle) -> Option<Handle>
    ensures { option_map (λ h. h.0) result ≡ lower_of (option_map (λ h. h.0) best) (candidate key after.0) }
{
    match key.topic_above(after) {
        Some(handle) => Some(best.map_or(handle, |b| b.min(handle))),
        None => best,
    }
}
