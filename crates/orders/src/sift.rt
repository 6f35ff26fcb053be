ghost use Rattle.std.specs.Prelude.{◌≡◌, ◌+◌, ◌-◌, ◌*◌, ◌<◌, ◌≤◌, [], ◌∷◌, length, take, drop, MatchOption, slice_index_or};
ghost use Rattle.std.specs.List.Sorted.{IsPermutation};
ghost use Rattle.orders.specs.Order.{Sound, Least};
ghost use Rattle.orders.specs.Sifting.{Heaped, FirstChild};

use crate::ranked::Ranked;

// Whether the element at `i` is at most the one at `j`.
fn at_most_at<T: Ranked + Copy>(s: &[T], i: usize, j: usize) -> bool
    requires { (i < length s.now) × (j < length s.now) }
    ensures { (d : T) → result ≡ T.Ranked.le (slice_index_or s.now i d) (slice_index_or s.now j d) }
{
    s[i].at_most(&s[j])
}

// The place of the child of `at` that goes first, if `at` has children.
fn first_child<T: Ranked + Copy>(s: &[T], at: usize) -> Option<usize>
    ensures { MatchOption result (length s.now ≤ «at» * 2 + 1) (FirstChild T.Ranked.le s.now «at») }
{
    if s.len() / 2 <= at {
        return None;
    }
    let left = at * 2 + 1;
    if left + 1 == s.len() || at_most_at(s, left, left + 1) {
        return Some(left);
    }
    Some(left + 1)
}

// Lets the last element rise to where its parent is at most it. It keeps the elements, and says so, as the
// other two do: the slice is lent, and only the heap above is a type.
pub(crate) fn sift_up<T: Ranked + Copy>(s: &mut [T])
    requires { 0 < length s.old }
    ensures shuffled { IsPermutation s.old s.new }
    ensures sound { Sound T.Ranked.le (take (length s.old - 1) s.old) → Sound T.Ranked.le s.new }
{
    let mut at = s.len() - 1;
    // A `while`, since the places do not go up or down by one: each is the parent of the one before.
    while at > 0 {
        let parent = (at - 1) / 2;
        if at_most_at(s, parent, at) {
            return;
        }
        s.swap(parent, at);
        at = parent;
    }
}

// Lets the element at `root` sink to where it is at most its children.
pub(crate) fn sift_down<T: Ranked + Copy>(s: &mut [T], root: usize)
    ensures shuffled { IsPermutation s.old s.new }
    ensures heaped { Heaped T.Ranked.le s.old (root + 1) (length s.old) → Heaped T.Ranked.le s.new root (length s.old) }
{
    let mut at = root;
    // So too here: each place is a child of the one before.
    while let Some(child) = first_child(s, at) {
        if at_most_at(s, at, child) {
            return;
        }
        s.swap(at, child);
        at = child;
    }
}

// Arranges the elements as a heap: the places from the middle on have no children, and the
// others are mended from the last to the first.
pub(crate) fn heapify<T: Ranked + Copy>(s: &mut [T])
    ensures shuffled { IsPermutation s.old s.new }
    ensures sound { Sound T.Ranked.le s.new }
{
    for root in (0..s.len() / 2).rev() {
        sift_down(s, root);
    }
}

// Gives the first element and leaves it in the last place, with the others arranged before it.
pub(crate) fn retire_first<T: Ranked + Copy>(s: &mut [T]) -> T
    requires { 0 < length s.old }
    ensures least { Sound T.Ranked.le s.old → Least T.Ranked.le result s.old }
    ensures last { drop (length s.old - 1) s.new ≡ result ∷ [] }
    ensures shuffled { IsPermutation s.old (result ∷ take (length s.old - 1) s.new) }
    ensures sound { Sound T.Ranked.le s.old → Sound T.Ranked.le (take (length s.old - 1) s.new) }
{
    let last = s.len() - 1;
    s.swap(0, last);
    sift_down(&mut s[..last], 0);
    s[last]
}
