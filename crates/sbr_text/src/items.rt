// A short list that can be copied, as an `ArrayVec` can't.
ghost use Rattle.std.specs.Prelude.{◌≤◌};

use std::alloc::AllocError;

// At most N items, in order: the first places of an array, and their count. Not sbr_build's `Slots`, which holds four and asks for room; the sealed library's
// `Onsets` and `Wanted` say for themselves why they are no such list.
pub struct Items<T, const N: usize> {
    count: usize,
    places: [T; N],
    ghost held: { count ≤ N },
}

// A copy has the same items. Written out: a derive is refused for a generic struct with a ghost field.
impl<T: Copy, const N: usize> Clone for Items<T, N> {
    ghost use Rattle.std.specs.Prelude.{◌≡◌, ⊤};

    ghost is_clone = { λ old new. new ≡ old };

    ghost is_infallible = { λ _. ⊤ };

    fn clone(&self) -> Result<Self, AllocError> {
        Ok(*self)
    }
}

impl<T: Copy, const N: usize> Copy for Items<T, N> {}

impl<T: Copy + Default, const N: usize> Items<T, N> {
    ghost use Rattle.std.specs.Prelude.{◌≡◌, [], length};
    ghost use Rattle.sbr_text.specs.Items.{item_list};
    ghost use Rattle.sbr_text.specs.Parts.{pushed};

    // None yet.
    pub fn new() -> Self
        ensures { item_list result ≡ [] }
    {
        Items {
            count: 0,
            places: [T::default(); N],
        }
    }

    // How many there are.
    pub fn len(&self) -> usize
        ensures { result ≡ length (item_list self.now) }
    {
        self.count
    }

    // The items, in order.
    pub fn as_slice(&self) -> &[T]
        ensures { result.now ≡ item_list self.now }
    {
        &self.places[..self.count]
    }

    // An item behind the others; left out where there is no room.
    pub fn push(&mut self, item: T)
        ensures { item_list self.new ≡ pushed N (item_list self.old) item }
    {
        if self.count < N {
            self.places[self.count] = item;
            self.count += 1;
        }
    }

    // None any more.
    pub fn clear(&mut self)
        ensures { item_list self.new ≡ [] }
    {
        self.count = 0;
    }
}
