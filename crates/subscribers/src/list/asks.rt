// What the subscriber list answers, changing nothing.
ghost use Rattle.std.specs.Prelude.{◌≡◌, ◌≤◌, [], map, length, take, is_some, IfOk};
ghost use Rattle.clients.specs.Subs.{sub_of};
ghost use Rattle.subscribers.specs.Held.{pairs, room, standings};
ghost use Rattle.subscribers.specs.Pairs.{collect_answer, collect_buffer, standing_of, subscribers_at};
ghost use Rattle.subscribers.specs.Standing.{join_answer, limit, place, stands, subs_at};

use super::Subscribers;
use super::scan::collect_in;
use crate::joined::Joined;
use crate::subscription::Subscription;
use clients::{Client, Subscriber};
use protocol::{Handle, MAX_SUBSCRIBERS, Refusal};

impl<'a, C: Client> Subscribers<'a, C> {
    // An empty list that may take as many pairs as there are places.
    pub fn new(places: &'a mut [Subscription<C>]) -> Subscribers<'a, C>
        ensures value { pairs result ≡ [] }
        ensures capacity { room result ≡ length places.old }
    {
        Subscribers { places, len: 0 }
    }

    // How many pairs stand.
    pub fn len(&self) -> usize
        ensures { result ≡ length (pairs self.now) }
    {
        self.len
    }

    // How many pairs there is room for.
    pub fn places(&self) -> usize
        ensures { result ≡ room self.now }
    {
        self.places.len()
    }

    // The pairs that stand.
    fn held(&self) -> &[Subscription<C>]
        ensures { result.now ≡ pairs self.now }
    {
        &self.places[..self.len]
    }

    // The place of the pair, if it stands.
    pub fn find(&self, pair: &Subscription<C>) -> Option<usize>
        ensures answer { result ≡ place (standings self.now) (standing_of C.Client.identity pair.now) }
        ensures stands { is_some result ≡ stands (standings self.now) (standing_of C.Client.identity pair.now) }
    {
        self.held().iter().position(|one| one.same(pair))
    }

    // How many subscribers the topic has.
    pub fn count(&self, handle: Handle) -> usize
        ensures answer { result ≡ length (subscribers_at handle.0 (pairs self.now)) }
        ensures standing { result ≡ length (subs_at handle.0 (standings self.now)) }
        ensures few { result ≤ limit }
    {
        // summed, since a filter is a loop of its own within that of its `count`
        self.held()
            .iter()
            .map(|one| u32::from(one.handle == handle))
            .sum::<u32>() as usize
    }

    // What a newcomer would be told.
    pub fn joining(&self, pair: &Subscription<C>) -> Joined
        ensures { result ≡ join_answer (standings self.now) (room self.now) (standing_of C.Client.identity pair.now) }
    {
        if self.find(pair).is_some() {
            return Joined::Standing;
        }
        if self.len >= self.places() || self.count(pair.handle) >= MAX_SUBSCRIBERS {
            return Joined::NoPlace;
        }
        Joined::Added
    }

    // Copies the topic's subscribers to the front of the work list, in order of subscription, and tells how many they are.
    pub fn collect(&self, handle: Handle, work: &mut [Subscriber<C>]) -> Result<usize, Refusal>
        ensures answer { result ≡ collect_answer handle.0 (pairs self.now) (length work.old) }
        ensures buffer { work.new ≡ collect_buffer handle.0 (pairs self.now) work.old }
        ensures standing { IfOk result (λ n. map (sub_of C.Client.identity) (take n work.new) ≡ subs_at handle.0 (standings self.now)) }
        ensures few { IfOk result (λ n. n ≤ limit) }
    {
        if work.len() < MAX_SUBSCRIBERS {
            return Err(Refusal::ShortBuffers);
        }
        Ok(collect_in(self.held(), handle, work))
    }
}
