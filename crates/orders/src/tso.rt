// Total store order: a later load may pass an earlier store, unless a barrier stands between.
ghost use Rattle.orders.specs.Fences.{rows};
ghost use Rattle.orders.specs.Tables.{tso_takes, tso_before, no_fences, TsoKeeps};
ghost use Rattle.std.specs.Prelude.{◌≡◌, []};
ghost use Rattle.orders.specs.Laws.{tso_fenced};
ghost use Rattle.std.proofs.Common.{rules};

use crate::entries::{Op, Shape};
use crate::fences::Fences;
use crate::order::MemoryOrder;
use crf::fence::Fence;
use crf::instruction::FenceKind;

#[derive(Clone, Copy)]
pub struct Tso;

impl MemoryOrder for Tso {
    ghost taken = { λ _. tso_takes };

    ghost ahead = { λ _. tso_before };

    ghost behind = { λ _. no_fences };

    ghost keeps = { λ _. TsoKeeps };

    ghost fenced = { λ o. tso_fenced };

    ghost few = { Prim.search rules };

    fn takes(&self, shape: Shape) -> bool
        ensures { result ≡ tso_takes shape }
    {
        match shape {
            Shape::Access(access) => access.is_plain(),
            Shape::Barrier(mask) => mask == 4,
        }
    }

    fn before(&self, shape: Shape) -> Fences
        ensures { rows result ≡ tso_before shape }
    {
        match shape {
            Shape::Access(access) => match access.op {
                Op::Load => Fences::one(Fence::all_to(FenceKind::Rr, access.address)),
                Op::Store => Fences::two_to(FenceKind::Rw, FenceKind::Ww, access.address),
            },
            Shape::Barrier(mask) => Fences::of_mask(mask),
        }
    }

    fn after(&self, _shape: Shape) -> Fences
        ensures { rows result ≡ [] }
    {
        Fences::none()
    }
}
