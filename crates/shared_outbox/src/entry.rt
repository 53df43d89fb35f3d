// An entry: for whom a message is, and where its content stands.
ghost use Rattle.std.specs.Prelude.{◌≡◌};

use clients::Subscriber;
use outbox::Fill;

// The place stands as an index: entries and places are two rows of lent memory, with no heap to share a content on.
#[derive(Clone, Copy)]
pub struct Entry<C> {
    pub subscriber: Subscriber<C>,
    pub place: usize,
}

impl<C: Copy> Fill<Entry<C>> for Entry<C> {
    ghost fills = { λ e _ after. after ≡ e };

    fn fill(&self, place: &mut Entry<C>) {
        *place = *self;
    }
}
