// A list of at most N items, in place.
ghost use Rattle.std.specs.Prelude.{◌≡◌, ◌-◌, ◌≤◌, ◌<◌, ⊤, [], length, take, remove};

use std::alloc::AllocError;

// The items are the first `len` slots; the others hold what was there before. A type of its own, since a book is handed on by copy
// and the library's `ArrayVec` is not `Copy`.
pub struct BoundedList<T, const N: usize> {
    slots: [T; N],
    len: usize,
    ghost whole: { length slots ≡ N },
    ghost few: { len ≤ N },
}

// A copy of a list is the list itself, and is made without an allocation. Neither impl can be derived over the ghost fields of a
// generic struct.
impl<T: Copy, const N: usize> Copy for BoundedList<T, N> {}

impl<T: Copy, const N: usize> Clone for BoundedList<T, N> {
    ghost is_clone = { λ b c. c ≡ b };

    ghost is_infallible = { λ _. ⊤ };

    fn clone(&self) -> Result<BoundedList<T, N>, AllocError> {
        Ok(*self)
    }
}

impl<T: Copy + Default, const N: usize> BoundedList<T, N> {
    ghost use Rattle.bounded.specs.Lists.{items};

    // A list with no item.
    pub fn new() -> BoundedList<T, N>
        ensures { items result ≡ [] }
    {
        BoundedList {
            slots: [T::default(); N],
            len: 0,
        }
    }
}

impl<T: Copy, const N: usize> BoundedList<T, N> {
    ghost use Rattle.bounded.specs.Lists.{items, pushed, removed};

    // The first k of these items, or all of them if there are fewer.
    pub fn first_of(slots: [T; N], k: usize) -> BoundedList<T, N>
        ensures { items result ≡ take k slots }
    {
        BoundedList {
            slots,
            len: k.min(N),
        }
    }

    // How many items there are.
    pub fn len(&self) -> usize
        ensures { result ≡ length (items self.now) }
    {
        self.as_slice().len()
    }

    // The items.
    pub fn as_slice(&self) -> &[T]
        ensures { result.now ≡ items self.now }
    {
        &self.slots[..self.len]
    }

    // Adds an item at the end and answers its place, or none and nothing added where there is no room.
    pub fn push(&mut self, item: T) -> Option<usize>
        ensures { pushed N (items self.old) item ≡ record { answer = result; after = items self.new } }
    {
        let at = self.len;
        if at == N {
            return None;
        }
        self.slots[at] = item;
        self.len = at + 1;
        Some(at)
    }

    // Takes out the item at place k and closes the gap, or answers none where there is no such place.
    pub fn remove(&mut self, k: usize) -> Option<T>
        ensures { removed (items self.old) k ≡ record { answer = result; after = items self.new } }
    {
        let len = self.len;
        if k >= len {
            return None;
        }
        let item = self.slots[k];
        close_gap(&mut self.slots, k, len);
        self.len = len - 1;
        Some(item)
    }

    // Keeps the first k items, or all if there are fewer.
    pub fn truncate(&mut self, k: usize)
        ensures { items self.new ≡ take k (items self.old) }
    {
        self.len = self.len.min(k);
    }
}

// Takes the item at place k out of the first `len`, and moves the later ones down.
fn close_gap<T>(slots: &mut [T], k: usize, len: usize)
    requires place { k < len }
    requires room { len ≤ length slots.old }
    ensures items { take (len - 1) slots.new ≡ remove (take len slots.old) k }
    ensures whole { length slots.new ≡ length slots.old }
{
    slots[k..len].rotate_left(1);
}
