ghost use Rattle.std.specs.Prelude.{◌≡◌, ◌+◌, ◌≤◌, min, [], ◌∷◌, length, take, drop, IfSome, MatchBool, MatchOption, nat_lt};
ghost use Rattle.orders.specs.Order.{Sound, Least};
ghost use Rattle.std.specs.List.Sorted.{IsPermutation};

use crate::ranked::Ranked;
use crate::sift::{heapify, retire_first, sift_up};

// A heap over lent memory: the first `len` places hold its elements.
// A slice with a length beside it, since the memory is its user's and anything may lie behind the
// elements. That they are in heap order is promised by each call and is no ghost field: it would bind the
// type to the order, and then no type over another kind of element could hold a heap.
#[derive(Drop)]
pub struct Heap<'a, T> {
    slots: &'a mut [T],
    len: usize,
    ghost few: { len ≤ length slots.now },
}

impl<'a, T: Ranked + Copy> Heap<'a, T> {
    ghost use Rattle.orders.specs.Held.{held, memory, room};

    // A heap of the first `len` elements, or of all where there are fewer, in whatever arrangement
    // they lie.
    pub fn new(slots: &'a mut [T], len: usize) -> Heap<'a, T>
        ensures held { IsPermutation (take len slots.old) (held result) }
        ensures rest { drop len (memory result) ≡ drop len slots.old }
        ensures room { room result ≡ length slots.old }
        ensures len { length (held result) ≡ min len (length slots.old) }
        ensures sound { Sound T.Ranked.le (held result) }
        ensures lender { result.slots.ghost_name ≡ slots.entry.ghost_name }
    {
        let count = len.min(slots.len());
        heapify(&mut slots[..count]);
        Heap { slots, len: count }
    }

    // How many elements the heap holds.
    pub fn len(&self) -> usize
        ensures { result ≡ length (held self.now) }
    {
        self.len
    }

    // Puts an element in, if there is room, and says whether there was: a plain no, since the caller
    // still has the element.
    pub fn push(&mut self, x: T) -> bool
        ensures full { result ≡ nat_lt (length (held self.old)) (room self.old) }
        ensures held { MatchBool result (IsPermutation (x ∷ held self.old) (held self.new)) (self.new ≡ self.old) }
        ensures rest { drop (length (held self.new)) (memory self.new) ≡ drop (length (held self.new)) (memory self.old) }
        ensures len { MatchBool result (length (held self.new) ≡ length (held self.old) + 1) (length (held self.new) ≡ length (held self.old)) }
        ensures room { room self.new ≡ room self.old }
        ensures sound { Sound T.Ranked.le (held self.old) → Sound T.Ranked.le (held self.new) }
        ensures lender { self.new.slots.ghost_name ≡ self.old.slots.ghost_name }
    {
        let at = self.len;
        if self.slots.len() <= at {
            return false;
        }
        self.slots[at] = x;
        sift_up(&mut self.slots[..at + 1]);
        self.len = at + 1;
        true
    }

    // Takes the least element out, and leaves it in the place that falls free.
    pub fn take(&mut self) -> Option<T>
        ensures held { MatchOption result ((held self.old ≡ []) × (self.new ≡ self.old)) (λ x. IsPermutation (held self.old) (x ∷ held self.new)) }
        ensures least { IfSome result (λ x. Sound T.Ranked.le (held self.old) → Least T.Ranked.le x (held self.old)) }
        ensures rest { IfSome result (λ x. drop (length (held self.new)) (memory self.new) ≡ x ∷ drop (length (held self.old)) (memory self.old)) }
        ensures len { MatchOption result (length (held self.new) ≡ 0) (λ _. length (held self.new) + 1 ≡ length (held self.old)) }
        ensures room { room self.new ≡ room self.old }
        ensures sound { Sound T.Ranked.le (held self.old) → Sound T.Ranked.le (held self.new) }
        ensures lender { self.new.slots.ghost_name ≡ self.old.slots.ghost_name }
    {
        let count = self.len;
        if count == 0 {
            return None;
        }
        let first = retire_first(&mut self.slots[..count]);
        self.len = count - 1;
        Some(first)
    }
}
