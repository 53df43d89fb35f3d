// Walks over pairs, from the first to the last.
ghost use Rattle.std.specs.Prelude.{◌≡◌, ◌≤◌, length, take};
ghost use Rattle.std.specs.Fn.{FnReturnsAt};
ghost use Rattle.subscribers.specs.Kept.{Keeps};
ghost use Rattle.protocol.specs.Buffers.{laid};
ghost use Rattle.subscribers.specs.Pairs.{subscribers_at};

use crate::subscription::Subscription;
use clients::Subscriber;
use protocol::Handle;

// Copies the handle's subscribers to the front of the work list, and tells how many they are.
pub(crate) fn collect_in<C: Copy>(
    pairs: &[Subscription<C>],
    handle: Handle,
    work: &mut [Subscriber<C>],
) -> usize
    requires { length (subscribers_at handle.0 pairs.now) ≤ length work.old }
    ensures answer { result ≡ length (subscribers_at handle.0 pairs.now) }
    ensures buffer { work.new ≡ laid (subscribers_at handle.0 pairs.now) work.old }
{
    let mut n = 0;
    // counted by hand: in generic code a `for` over an adapter with a closure gets no proof
    for pair in pairs {
        if pair.handle == handle {
            work[n] = pair.subscriber;
            n += 1;
        }
    }
    n
}

// Moves what passes the test to the front, in its order, and tells how much that is.
pub(crate) fn retain<T: Copy, F: Fn(&T) -> bool>(row: &mut [T], keep: F) -> usize
    requires { F.IsAlwaysCallable keep }
    ensures within { result ≤ length row.old }
    ensures kept { Keeps (FnReturnsAt F.Fn keep) row.old (take result row.new) }
{
    let mut kept = 0;
    // by index: the slice that is read is written too
    for i in 0..row.len() {
        let one = row[i];
        if keep(&one) {
            row[kept] = one;
            kept += 1;
        }
    }
    kept
}
