// A short list that is filled as a whole and taken from the front.
ghost use Rattle.std.specs.Prelude.{◌≤◌, List, take, drop};
ghost use Rattle.transfer.specs.Limits.{most_items};

use crate::refusal::Refusal;
use std::marker::Model;

/// How many items a list has at most.
pub const MOST_ITEMS: usize = 8;

/// A list of up to [`MOST_ITEMS`] items, the first one first.
// The first `count` of `slots` are the list, and those from `place` on are left. A buffer with its
// length: a sensor head has no heap, and the kit's `ArrayVec` needs a default of the items, which
// callers need not have.
#[derive(Drop)]
pub struct Fifo<T> {
    slots: [T; MOST_ITEMS],
    count: usize,
    place: usize,
}

// Clauses see what is left of the list.
impl<T> Model for Fifo<T> {
    ghost Value = { List T };

    ghost view = { λ f. drop f.place (take f.count f.slots) };

    ghost invariant = { λ f. (f.place ≤ f.count) × (f.count ≤ most_items) };
}

impl<T: Copy> Fifo<T> {
    ghost use Rattle.std.specs.Prelude.{◌≡◌, ◌≤◌, [], length, slice_get};
    ghost use Rattle.transfer.specs.Fifo.{fifo_answer_to_fill};
    ghost use Rattle.transfer.specs.Refusal.{answer};

    /// An empty list; `filler` only takes up its room.
    pub fn new(filler: T) -> Fifo<T>
        ensures { result ≡ [] }
    {
        Fifo {
            slots: [filler; MOST_ITEMS],
            count: 0,
            place: 0,
        }
    }

    /// Starts a new list, in the place of what is left of the old. One that is too long is refused,
    /// and changes nothing.
    pub fn fill(&mut self, items: &[T]) -> Result<(), Refusal>
        ensures filled { (answer (λ u. u) result, self.new) ≡ fifo_answer_to_fill items.now self.old }
        ensures few { length self.new ≤ most_items }
    {
        // looked at here, so that a refused list is known to be short too
        let _before = self.left();
        if items.len() > MOST_ITEMS {
            return Err(Refusal::LengthOutOfRange);
        }
        self.slots[..items.len()].copy_from_slice(items);
        self.count = items.len();
        self.place = 0;
        Ok(())
    }

    /// The items that are left, the first one first.
    pub fn left(&self) -> &[T]
        ensures left { result.now ≡ self.now }
        ensures few { length self.now ≤ most_items }
    {
        let listed = &self.slots[..self.count];
        &listed[self.place..]
    }

    /// The first of the items that are left.
    pub fn first(&self) -> Option<T>
        ensures first { result ≡ slice_get self.now 0 }
        ensures few { length self.now ≤ most_items }
    {
        self.left().first().copied()
    }

    /// Goes on to the next item, if one is left.
    pub fn advance(&mut self)
        ensures left { self.new ≡ drop 1 self.old }
        ensures few { length self.new ≤ most_items }
    {
        self.place = (self.place + 1).min(self.count);
    }
}
