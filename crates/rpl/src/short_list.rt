ghost use Rattle.std.specs.Prelude.{◌≡◌, ◌+◌, ◌<◌, ◌≤◌, ◌==◌, ⊤, [], ◌∷◌, ◌++◌, length, take};
ghost use Rattle.std.specs.Cmp.{on_equiv, on_per};
ghost use Rattle.std.specs.Cmp.Lexicographic.{lists_equiv, lists_per, pointwise};

use std::alloc::AllocError;
use std::fmt;
use std::marker::Model;
use std::ops::DerefSlice;

/// What an unused slot of a short list holds.
pub trait Blank: Copy {
    ghost blank: { Self };

    fn blank() -> Self
        ensures { result ≡ blank };
}

/// A list of at most `N` items, which lie in the value itself, so that it can be copied.
// The kit's `ArrayVec` is not `Copy`, and its items do not determine it.
#[derive(Copy)]
pub struct ShortList<T: Blank, const N: usize> {
    slots: [T; N],
    len: usize,
}

impl<T: Blank, const N: usize> Model for ShortList<T, N> {
    ghost use Rattle.std.specs.Prelude.{length, take};
    ghost use Rattle.rpl.specs.ShortList.{ShortList as Items};
    ghost use Rattle.rpl.specs.Slots.{Slotted, items_few, slots_back, slots_of};

    ghost Value = { Items T };

    ghost view = { λ s. record { items = take s.len s.slots } };

    ghost invariant = { λ s. Slotted T.Blank.blank N s.len s.slots };

    ghost inverse = { λ v. record { slots = slots_of T.Blank.blank N v.items; len = length v.items } };

    ghost inverse_ok = { λ s h i. record {
      slots = slots_back T.Blank.blank N s.len s.slots h i;
      len = items_few T.Blank.blank N s.len s.slots h i;
    } };
}

impl<T: Blank, const N: usize> Clone for ShortList<T, N> {
    ghost is_clone = { λ list copy. copy ≡ list };

    ghost is_infallible = { λ _. ⊤ };

    fn clone(&self) -> Result<Self, AllocError> {
        Ok(*self)
    }
}

// Lists are compared and shown as their items are.
impl<T: Blank + PartialEq, const N: usize> PartialEq for ShortList<T, N> {
    ghost eq = { λ a b. pointwise T.eq a.items b.items };

    ghost laws = { on_per (λ list. list.items) (lists_per T.laws) };

    fn eq(&self, other: &Self) -> bool {
        self.as_slice() == other.as_slice()
    }
}

impl<T: Blank + Eq, const N: usize> Eq for ShortList<T, N> {
    ghost laws = { on_equiv (λ list. list.items) (lists_equiv T.Eq.laws) };
}

impl<T: Blank + fmt::Debug, const N: usize> fmt::Debug for ShortList<T, N> {
    fn fmt<W: fmt::Write>(&self, f: &mut fmt::Formatter<W>) -> fmt::Result {
        f.debug_list().entries(self.as_slice()).finish()
    }
}

impl<T: Blank, const N: usize> DerefSlice for ShortList<T, N> {
    type Elem = T;

    ghost deref_gives = { λ list items. (items ≡ list.items) × (length items ≤ N) };

    fn deref(&self) -> &[T] {
        self.as_slice()
    }
}

impl<T: Blank, const N: usize> ShortList<T, N> {
    /// The list of no item.
    pub fn new() -> Self
        ensures { result.items ≡ [] }
    {
        ShortList {
            slots: [T::blank(); N],
            len: 0,
        }
    }

    /// The first `len` of these items, or all of them where there are fewer.
    pub fn first_of(items: [T; N], len: usize) -> Self
        ensures { result.items ≡ take len items }
    {
        let mut list = ShortList::new();
        for slot in 0..len.min(N) {
            list.push(items[slot]);
        }
        list
    }

    /// The number of items.
    pub fn len(&self) -> usize
        ensures is { result ≡ length self.now.items }
        ensures few { result ≤ N }
    {
        self.as_slice().len()
    }

    /// The items.
    pub fn as_slice(&self) -> &[T]
        ensures is { result.now ≡ self.now.items }
        ensures few { length result.now ≤ N }
    {
        &self.slots[..self.len]
    }

    /// Whether there is no room for one more item.
    pub fn is_full(&self) -> bool
        ensures is { result ≡ (length self.now.items == N) }
        ensures few { length self.now.items ≤ N }
    {
        self.len == N
    }

    /// Puts an item behind the others.
    pub fn push(&mut self, item: T)
        requires { length self.old.items < N }
        ensures items { self.new.items ≡ self.old.items ++ item ∷ [] }
        ensures len { length self.new.items ≡ length self.old.items + 1 }
    {
        self.slots[self.len] = item;
        self.len += 1;
    }

    /// Puts an item in front of the others.
    pub fn push_front(&mut self, item: T)
        requires { length self.old.items < N }
        ensures { self.new.items ≡ item ∷ self.old.items }
    {
        self.slots.rotate_right(1);
        self.slots[0] = item;
        self.len += 1;
    }
}
