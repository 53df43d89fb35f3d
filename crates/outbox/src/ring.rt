// A ring: a queue in places that the caller lends, which goes on at their front when it has come to their end.
ghost use Rattle.std.specs.Prelude.{◌≡◌, ◌+◌, ◌^◌, ◌<◌, ◌≤◌, true, false, [], ◌∷◌, ◌++◌, length, drop, nat_lt, option_copied, slice_get};
ghost use Rattle.std.specs.Fn.{FnOnceReturnsAtMut};
ghost use Rattle.outbox.specs.Rings.{place};

use std::marker::Model;

// What is put into a ring, as it is written to its place, in which still lies what was there before.
// A trait and no closure: a call of a closure would ask of the caller that it may be called.
pub trait Fill<T> {
    // what the place is before, and once the item is written
    ghost fills: { Self → T → T → Type 0 };

    fn fill(&self, place: &mut T)
        ensures { fills self.now place.old place.new };
}

// Where the queue stands in the places, as two numbers: the places are the caller's, and there is no heap.
#[derive(Drop)]
pub struct Ring<'a, T> {
    places: &'a mut [T],
    start: usize,
    len: usize,
}

// Clauses see the items, the oldest first, and for how many there is a place.
impl<'a, T> Model for Ring<'a, T> {
    ghost use Rattle.std.specs.Prelude.{◌-◌, ◌≤◌, length};
    ghost use Rattle.outbox.specs.Rings.{Queue, queue_code, ring};

    ghost Value = { Queue T };

    ghost coded = { queue_code T.code };

    ghost view = { λ r. record { items = ring r.start r.len r.places.now; capacity = length r.places.now } };

    ghost invariant = { λ r. (r.start ≤ length r.places.now - 1) × (r.len ≤ length r.places.now) };
}

// The place of the element with this index, in a ring over so many places whose first element stands at the start.
// No remainder: the sum of a start and an index may not fit, and there may be no places.
fn place_of(start: usize, index: usize, places: usize) -> usize
    ensures { result ≡ place start index places }
{
    let before_end = places.saturating_sub(start);
    if index < before_end {
        start + index
    } else {
        index - before_end
    }
}

impl<'a, T> Ring<'a, T> {
    // A ring over these places that holds nothing.
    pub fn new(places: &'a mut [T]) -> Ring<'a, T>
        ensures items { result.items ≡ [] }
        ensures capacity { result.capacity ≡ length places.old }
    {
        Ring {
            places,
            start: 0,
            len: 0,
        }
    }

    // How many items it has places for.
    pub fn capacity(&self) -> usize
        ensures { result ≡ self.now.capacity }
    {
        self.places.len()
    }

    // How many more items it has places for.
    pub fn free(&self) -> usize
        ensures { length self.now.items + result ≡ self.now.capacity }
    {
        self.capacity() - self.len
    }

    // The item with this index, counted from the oldest.
    pub fn get(&self, index: usize) -> Option<&T>
        ensures { option_copied result ≡ slice_get self.now.items index }
    {
        if index >= self.len {
            return None;
        }
        let places = &*self.places;
        Some(&places[place_of(self.start, index, self.capacity())])
    }

    // The oldest item.
    pub fn first(&self) -> Option<&T>
        ensures { option_copied result ≡ slice_get self.now.items 0 }
    {
        self.get(0)
    }

    // Takes the oldest item out, if there is one.
    pub fn drop_first(&mut self)
        ensures items { self.new.items ≡ drop 1 self.old.items }
        ensures capacity { self.new.capacity ≡ self.old.capacity }
    {
        if self.len > 0 {
            self.start = place_of(self.start, 1, self.capacity());
            self.len -= 1;
        }
    }

    // Puts an item behind the last, written to its place, and tells whether there was one; where there is none, nothing changes.
    pub fn push<F: Fill<T>>(&mut self, item: &F) -> bool
        ensures room { result ≡ nat_lt (length self.old.items) self.old.capacity }
        ensures items { result ≡ true → (before : T) × (after : T) × F.fills item.now before after × (self.new.items ≡ self.old.items ++ after ∷ []) }
        ensures same { result ≡ false → self.new ≡ self.old }
        ensures within { length self.new.items ≤ self.new.capacity }
        ensures len { length self.new.items < 2 ^ 64 }
        ensures capacity { self.new.capacity ≡ self.old.capacity }
    {
        if self.len >= self.capacity() {
            return false;
        }
        let at = place_of(self.start, self.len, self.capacity());
        item.fill(&mut self.places[at]);
        self.len += 1;
        true
    }

    // Puts an item behind the last, by a closure that writes to its place, in which still lies what was there before: so a caller can give away what it owns.
    // It asks for a place, and that the closure may be called; `push` asks nothing.
    pub fn push_with<F: FnOnce(&mut T)>(&mut self, write: F)
        requires room { length self.old.items < self.old.capacity }
        requires call { F.IsAlwaysCallable write }
        ensures items { (before : T) × (after : T) × FnOnceReturnsAtMut F.FnOnce write before tt after × (self.new.items ≡ self.old.items ++ after ∷ []) }
        ensures len { length self.new.items < 2 ^ 64 }
        ensures capacity { self.new.capacity ≡ self.old.capacity }
    {
        let capacity = self.capacity();
        let at = place_of(self.start, self.len, capacity);
        write(&mut self.places[at]);
        self.len += 1;
    }
}
