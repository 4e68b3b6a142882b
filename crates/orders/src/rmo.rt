// Relaxed memory order: only barriers keep pairs.
ghost use Rattle.orders.specs.Fences.{rows};
ghost use Rattle.orders.specs.Tables.{rmo_takes, rmo_before, no_fences, RmoKeeps};
ghost use Rattle.std.specs.Prelude.{◌≡◌, []};
ghost use Rattle.orders.specs.Laws.{rmo_fenced};
ghost use Rattle.std.proofs.Common.{rules};

use crate::entries::Shape;
use crate::fences::Fences;
use crate::order::MemoryOrder;

#[derive(Clone, Copy)]
pub struct Rmo;

impl MemoryOrder for Rmo {
    ghost taken = { λ _. rmo_takes };

    ghost ahead = { λ _. rmo_before };

    ghost behind = { λ _. no_fences };

    ghost keeps = { λ _. RmoKeeps };

    ghost fenced = { λ o. rmo_fenced };

    ghost few = { Prim.search rules };

    fn takes(&self, shape: Shape) -> bool
        ensures { result ≡ rmo_takes shape }
    {
        match shape {
            Shape::Access(access) => access.is_plain(),
            Shape::Barrier(mask) => (1..=15).contains(&mask),
        }
    }

    fn before(&self, shape: Shape) -> Fences
        ensures { rows result ≡ rmo_before shape }
    {
        match shape {
            Shape::Access(_) => Fences::none(),
            Shape::Barrier(mask) => Fences::of_mask(mask),
        }
    }

    fn after(&self, _shape: Shape) -> Fences
        ensures { rows result ≡ [] }
    {
        Fences::none()
    }
}
