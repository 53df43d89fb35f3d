// What changes the subscriber list: one joins, one leaves, all of a topic leave.
ghost use Rattle.std.specs.Prelude.{◌≡◌, ℕ, ◌+◌, ◌≤◌, false, [], length, if◌then◌else◌, ◌≢◌};
ghost use Rattle.std.specs.Fn.{FnReturnsAt};
ghost use Rattle.subscribers.specs.Held.{pairs, room, standings};
ghost use Rattle.subscribers.specs.Kept.{Keeps};
ghost use Rattle.subscribers.specs.Pairs.{elsewhere, others, standing_of, subscribers_at};
ghost use Rattle.subscribers.specs.Standing.{Once, Standing, has_place, join_answer, joined_by, same_pair, stands, without, without_topic};

use super::Subscribers;
use super::scan::retain;
use crate::joined::Joined;
use crate::subscription::Subscription;
use clients::Client;
use protocol::Handle;

impl<'a, C: Client> Subscribers<'a, C> {
    // Adds the pair at the end, unless it stands already or there is no place for it.
    pub fn add(&mut self, pair: Subscription<C>) -> Joined
        ensures answer { result ≡ join_answer (standings self.old) (room self.old) (standing_of C.Client.identity pair) }
        ensures after { pairs self.new ≡ joined_by result pair (pairs self.old) }
        ensures standing { standings self.new ≡ joined_by result (standing_of C.Client.identity pair) (standings self.old) }
        ensures stands { stands (standings self.new) (standing_of C.Client.identity pair) ≡ has_place result }
        ensures once { Once (standings self.new) }
        ensures capacity { room self.new ≡ room self.old }
    {
        let told = self.joining(&pair);
        if told == Joined::Added {
            self.places[self.len] = pair;
            self.len += 1;
        }
        told
    }

    // Removes the pair, and tells whether it stood; the others keep their order.
    pub fn remove(&mut self, pair: &Subscription<C>) -> bool
        ensures answer { result ≡ stands (standings self.old) (standing_of C.Client.identity pair.now) }
        ensures after { pairs self.new ≡ others C.Client.identity (standing_of C.Client.identity pair.now) (pairs self.old) }
        ensures standing { standings self.new ≡ without (standing_of C.Client.identity pair.now) (standings self.old) }
        ensures gone { stands (standings self.new) (standing_of C.Client.identity pair.now) ≡ false }
        ensures rest { (z : Standing) → same_pair z (standing_of C.Client.identity pair.now) ≡ false → stands (standings self.new) z ≡ stands (standings self.old) z }
        ensures one { length (pairs self.new) + (if result then 1 else 0) ≡ length (pairs self.old) }
        ensures once { Once (standings self.new) }
        ensures capacity { room self.new ≡ room self.old }
    {
        let before = self.len;
        self.retain(|one| !one.same(pair));
        self.len < before
    }

    // Removes all pairs of the topic, and tells how many; the others keep their order.
    pub fn remove_all(&mut self, handle: Handle) -> usize
        ensures answer { result ≡ length (subscribers_at handle.0 (pairs self.old)) }
        ensures after { pairs self.new ≡ elsewhere handle.0 (pairs self.old) }
        ensures standing { standings self.new ≡ without_topic handle.0 (standings self.old) }
        ensures gone { subscribers_at handle.0 (pairs self.new) ≡ [] }
        ensures rest { (k : ℕ) → (k ≢ handle.0) → subscribers_at k (pairs self.new) ≡ subscribers_at k (pairs self.old) }
        ensures once { Once (standings self.new) }
        ensures capacity { room self.new ≡ room self.old }
    {
        let before = self.len;
        self.retain(|one| one.handle != handle);
        before - self.len
    }

    // Keeps the pairs that pass the test, in their order.
    fn retain<F: Fn(&Subscription<C>) -> bool>(&mut self, keep: F)
        requires { F.IsAlwaysCallable keep }
        ensures kept { Keeps (FnReturnsAt F.Fn keep) (pairs self.old) (pairs self.new) }
        ensures bound { length (pairs self.new) ≤ length (pairs self.old) }
        ensures capacity { room self.new ≡ room self.old }
    {
        let n = self.len;
        // none stands while the places are written
        self.len = 0;
        let places = &mut *self.places;
        self.len = retain(&mut places[..n], keep);
    }
}
