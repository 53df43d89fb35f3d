// One pair of the subscriber list.
ghost use Rattle.std.specs.Prelude.{◌≡◌, Decides};
ghost use Rattle.subscribers.specs.Standing.{same_pair};
ghost use Rattle.subscribers.specs.Pairs.{standing_of};

use clients::{Client, Subscriber};
use protocol::Handle;

// A topic's handle and one who is subscribed to it.
#[derive(Clone, Copy)]
pub struct Subscription<C> {
    pub handle: Handle,
    pub subscriber: Subscriber<C>,
}

impl<C: Client> Subscription<C> {
    // Whether both are the same pair. By hand, since a client is the same as its kind says, and no derive knows that.
    pub fn same(&self, other: &Subscription<C>) -> bool
        ensures answer { result ≡ same_pair (standing_of C.Client.identity self.now) (standing_of C.Client.identity other.now) }
        ensures decides { Decides result (standing_of C.Client.identity self.now ≡ standing_of C.Client.identity other.now) }
    {
        self.handle == other.handle
            && self.subscriber.client.same(&other.subscriber.client)
            && self.subscriber.token.same(&other.subscriber.token)
    }
}
