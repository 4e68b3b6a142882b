// The up to four fences that stand at one place of a program.
ghost use Rattle.std.specs.Prelude.{◌≡◌, ◌+◌, ◌<◌, ◌≤◌, [], ◌∷◌, ◌++◌, length, slice_get, option_map};
ghost use Rattle.crf.specs.Fences.{row_of, star_to, from_star};
ghost use Rattle.orders.specs.Fences.{rows, if_has, by_mask};

use crf::fence::Fence;
use crf::instruction::FenceKind;

// Kept: an enum of none to four, since the fences of a place are copied, and an `ArrayVec` can't be.
#[derive(Clone, Copy)]
pub enum Fences {
    Zero,
    One(Fence),
    Two(Fence, Fence),
    Three(Fence, Fence, Fence),
    Four(Fence, Fence, Fence, Fence),
}

impl Fences {
    pub fn none() -> Fences
        ensures { rows result ≡ [] }
    {
        Self::Zero
    }

    pub fn one(fence: Fence) -> Fences
        ensures { rows result ≡ row_of fence ∷ [] }
    {
        Fences::none().with(fence)
    }

    pub fn two(first: Fence, second: Fence) -> Fences
        ensures { rows result ≡ row_of first ∷ row_of second ∷ [] }
    {
        Fences::none().with(first).with(second)
    }

    // One fence more, if there are fewer than four.
    pub fn with(self, fence: Fence) -> Fences
        ensures more { length (rows self) < 4 → rows result ≡ rows self ++ (row_of fence ∷ []) }
        ensures full { 4 ≤ length (rows self) → rows result ≡ rows self }
        ensures few { length (rows result) ≤ length (rows self) + 1 }
    {
        match self {
            Fences::Zero => Fences::One(fence),
            Fences::One(a) => Fences::Two(a, fence),
            Fences::Two(a, b) => Fences::Three(a, b, fence),
            Fences::Three(a, b, c) => Fences::Four(a, b, c, fence),
            Fences::Four(_, _, _, _) => self,
        }
    }

    // Two fences between all addresses and `address`.
    pub fn two_to(first: FenceKind, second: FenceKind, address: u32) -> Fences
        ensures { rows result ≡ star_to first address ∷ star_to second address ∷ [] }
    {
        Fences::two(
            Fence::all_to(first, address),
            Fence::all_to(second, address),
        )
    }

    // Two fences between `address` and all addresses.
    pub fn two_from(first: FenceKind, second: FenceKind, address: u32) -> Fences
        ensures { rows result ≡ from_star first address ∷ from_star second address ∷ [] }
    {
        Fences::two(
            Fence::to_all(first, address),
            Fence::to_all(second, address),
        )
    }

    // The fence of a kind more, if the mask has its bit.
    fn with_kind(self, mask: u8, bit: u8, kind: FenceKind) -> Fences
        ensures more { length (rows self) < 4 → rows result ≡ rows self ++ if_has mask bit kind }
        ensures few { length (rows result) ≤ length (rows self) + 1 }
    {
        if mask & bit != 0 {
            self.with(Fence::all(kind))
        } else {
            self
        }
    }

    // The fences of a barrier's mask.
    pub fn of_mask(mask: u8) -> Fences
        ensures { rows result ≡ by_mask mask }
    {
        Fences::none()
            .with_kind(mask, 1, FenceKind::Rr)
            .with_kind(mask, 2, FenceKind::Rw)
            .with_kind(mask, 4, FenceKind::Wr)
            .with_kind(mask, 8, FenceKind::Ww)
    }

    pub fn count(self) -> usize
        ensures count { result ≡ length (rows self) }
        ensures few { result ≤ 4 }
    {
        match self {
            Fences::Zero => 0,
            Fences::One(_) => 1,
            Fences::Two(_, _) => 2,
            Fences::Three(_, _, _) => 3,
            Fences::Four(_, _, _, _) => 4,
        }
    }

    // The fence at a place of their row, counted from 0.
    pub fn get(self, k: usize) -> Option<Fence>
        ensures { option_map row_of result ≡ slice_get (rows self) k }
    {
        match (self, k) {
            (Fences::One(a), 0)
            | (Fences::Two(a, _), 0)
            | (Fences::Three(a, _, _), 0)
            | (Fences::Four(a, _, _, _), 0) => Some(a),
            (Fences::Two(_, b), 1) | (Fences::Three(_, b, _), 1) | (Fences::Four(_, b, _, _), 1) =>
                Some(b),
            (Fences::Three(_, _, c), 2) | (Fences::Four(_, _, c, _), 2) => Some(c),
            (Fences::Four(_, _, _, d), 3) => Some(d),
            _ => None,
        }
    }
}
