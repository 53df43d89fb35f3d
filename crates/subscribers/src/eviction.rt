// Who leaves a topic that has more subscribers than it may have.
ghost use Rattle.std.specs.Prelude.{◌≡◌, ℕ, ◌<◌, List, map, length, Option, MatchOption};
ghost use Rattle.clients.specs.Subs.{Sub, sub_of};
ghost use Rattle.subscribers.specs.Choice.{Names, newest, oldest};
ghost use Rattle.subscribers.specs.Laws.{newest_named, oldest_named};

use clients::{Client, Subscriber};

pub trait Eviction<C: Client> {
    // the place of the one who leaves, among the topic's subscribers in order of subscription
    ghost choice: { Self → List Sub → Option ℕ };

    // Chooses one of the topic's subscribers, who stand in order of subscription.
    fn choose(&self, subscribers: &[Subscriber<C>]) -> Option<usize>
        ensures answer { result ≡ choice self.now (map (sub_of C.Client.identity) subscribers.now) }
        ensures place { MatchOption result (length subscribers.now ≡ 0) (λ i. i < length subscribers.now) };

    ghost names: { (e : Self) (l : List Sub) → Names l (choice e l) };
}

// The one who subscribed last leaves.
#[derive(Clone, Copy)]
pub struct Newest;

impl<C: Client> Eviction<C> for Newest {
    ghost choice = { λ _ l. newest l };

    ghost names = { λ _ l. newest_named l };

    fn choose(&self, subscribers: &[Subscriber<C>]) -> Option<usize> {
        subscribers.len().checked_sub(1)
    }
}

// The one who subscribed first leaves.
#[derive(Clone, Copy)]
pub struct Oldest;

impl<C: Client> Eviction<C> for Oldest {
    ghost choice = { λ _ l. oldest l };

    ghost names = { λ _ l. oldest_named l };

    fn choose(&self, subscribers: &[Subscriber<C>]) -> Option<usize> {
        (!subscribers.is_empty()).then_some(0)
    }
}
