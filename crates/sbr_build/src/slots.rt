// At most four numbers, which can be copied.

ghost use Rattle.std.specs.Prelude.{◌≡◌, map, min, ◌≤◌};
ghost use Rattle.sbr_grid.specs.Grid.{first};

use sbr_grid::SbrGrid;
use std::alloc::AllocError;

// At most four numbers of slots, as lengths or borders: the first places of an array, and their count; contracts speak of their list. No library type: the
// sealed program stands on none. No Model: one whose view forgets the places behind the count can't be `Copy`.
pub struct Slots<T> {
    count: usize,
    slots: [T; SbrGrid::MAX_REL_BORD],
    ghost few: { count ≤ 4 },
}

// A copy has the same numbers. Written out: a derive is refused for a generic struct with a ghost field.
impl<T: Copy> Clone for Slots<T> {
    ghost use Rattle.std.specs.Prelude.{◌≡◌, ⊤};

    ghost is_clone = { λ old new. new ≡ old };

    ghost is_infallible = { λ _. ⊤ };

    fn clone(&self) -> Result<Self, AllocError> {
        Ok(*self)
    }
}

impl<T: Copy> Copy for Slots<T> {}

impl<T: Copy + Default> Slots<T> {
    ghost use Rattle.std.specs.Prelude.{◌≡◌, [], ◌++◌, ◌∷◌, length, ◌<◌};
    ghost use Rattle.sbr_build.specs.Slots.{slot_list};

    // None yet.
    pub fn new() -> Self
        ensures { slot_list result ≡ [] }
    {
        Slots {
            count: 0,
            slots: [T::default(); SbrGrid::MAX_REL_BORD],
        }
    }

    // The numbers handed in, in order.
    #[tactic(auto, using(crate::proofs::SlotList::first_of))]
    pub fn of(slots: &[T]) -> Self
        requires { length slots.now ≤ 4 }
        ensures { slot_list result ≡ slots.now }
    {
        Slots {
            count: slots.len(),
            slots: sbr_grid::padded(slots, T::default()),
        }
    }

    // One more behind the others.
    #[tactic(auto, using(crate::proofs::SlotList::first_with))]
    pub fn push(&mut self, more: T)
        requires { length (slot_list self.old) < 4 }
        ensures { slot_list self.new ≡ slot_list self.old ++ (more ∷ []) }
    {
        // The count is read once, before the write: behind a write at a place that it gives, the compiler would read it again.
        let place = self.count;
        self.slots[place] = more;
        self.count = place + 1;
    }

    // The numbers, in order.
    #[tactic(auto, using(crate::proofs::SlotList::first_few))]
    pub fn as_slice(&self) -> &[T]
        ensures { (result.now ≡ slot_list self.now) × (length result.now ≤ 4) }
    {
        &self.slots[..self.count]
    }
}

// A number as a byte; above 255 it is 255.
fn byte_of(n: u32) -> u8
    ensures { result ≡ min n 255 }
{
    n.min(255) as u8
}

// The first four numbers as bytes; places past them are zero.
fn four_bytes(numbers: &[u32]) -> [u8; SbrGrid::MAX_REL_BORD]
    ensures { result ≡ first 0 4 (map (λ n. min n 255) numbers.now) }
{
    sbr_grid::padded::<u32, { SbrGrid::MAX_REL_BORD }>(numbers, 0).map(byte_of)
}

impl Slots<u32> {
    ghost use Rattle.sbr_build.specs.Slots.{slot_list};

    // The numbers as bytes; one above 255 is 255.
    #[tactic(auto, using(crate::proofs::SlotList::first_map))]
    pub fn bytes(&self) -> Slots<u8>
        ensures { slot_list result ≡ map (λ n. min n 255) (slot_list self.now) }
    {
        let numbers = self.as_slice();
        Slots {
            count: numbers.len(),
            slots: four_bytes(numbers),
        }
    }
}
