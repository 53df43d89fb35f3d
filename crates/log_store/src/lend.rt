// A log store lent for the time of some work.
ghost use Rattle.std.specs.Prelude.{◌≡◌, ◌/◌, false, [], length, is_ok, MatchResult, nat_le};
ghost use Rattle.protocol.specs.declared.refusal.Refusal.TheVariants.{ShortMemory};

use crate::held::{LogStore, room_for_two};
use protocol::Refusal;
use store::Work;

// Does the work with a log store in the caller's bytes, empty whatever they hold; less than room for two entries is refused,
// and the bytes then stay as they were: `LogStore::new` cannot say so, since what it returns may hold them.
pub fn with_log<W: Work + Drop>(bytes: &mut [u8], work: W) -> Result<W::Output, Refusal>
    ensures test { is_ok result ≡ nat_le 1166 (length bytes.old) }
    ensures answer { MatchResult result (λ o. W.Work.done work [] (length bytes.old / 583) o) (λ e. e ≡ ShortMemory) }
    ensures same { is_ok result ≡ false → bytes.new ≡ bytes.old }
{
    room_for_two(bytes)?;
    let mut store = LogStore::of(bytes);
    Ok(work.run(&mut store))
}
