// Work that a host wants done with a store: the way to a store that may be refused its memory.
ghost use Rattle.std.specs.Prelude.{ℕ, List};
ghost use Rattle.store.specs.Held.{Entry};

use crate::store::Store;

// A trait and no closure, since a closure takes a store of one type, and the work any.
pub trait Work {
    type Output;

    // what may come of the work on a store with this map and this capacity
    ghost done: { Self → List Entry → ℕ → Self.Output → Type 0 };

    // Does the work with any store.
    fn run<S: Store>(self, store: &mut S) -> Self::Output
        ensures { done self (S.Store.held store.old) (S.Store.capacity store.old) result };
}
