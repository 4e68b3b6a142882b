// Partial store order: later accesses may pass an earlier store, unless a barrier stands between.
ghost use Rattle.orders.specs.Fences.{rows};
ghost use Rattle.orders.specs.Tables.{pso_takes, pso_before, no_fences, PsoKeeps};
ghost use Rattle.std.specs.Prelude.{◌≡◌, []};
ghost use Rattle.orders.specs.Laws.{pso_fenced};
ghost use Rattle.std.proofs.Common.{rules};

use crate::entries::{Op, Shape};
use crate::fences::Fences;
use crate::order::MemoryOrder;
use crf::fence::Fence;
use crf::instruction::FenceKind;

#[derive(Clone, Copy)]
pub struct Pso;

impl MemoryOrder for Pso {
    ghost taken = { λ _. pso_takes };

    ghost ahead = { λ _. pso_before };

    ghost behind = { λ _. no_fences };

    ghost keeps = { λ _. PsoKeeps };

    ghost fenced = { λ o. pso_fenced };

    ghost few = { Prim.search rules };

    fn takes(&self, shape: Shape) -> bool
        ensures { result ≡ pso_takes shape }
    {
        match shape {
            Shape::Access(access) => access.is_plain(),
            Shape::Barrier(mask) => mask == 12,
        }
    }

    fn before(&self, shape: Shape) -> Fences
        ensures { rows result ≡ pso_before shape }
    {
        match shape {
            Shape::Access(access) => match access.op {
                Op::Load => Fences::one(Fence::all_to(FenceKind::Rr, access.address)),
                Op::Store => Fences::one(Fence::all_to(FenceKind::Rw, access.address)),
            },
            Shape::Barrier(mask) => Fences::of_mask(mask),
        }
    }

    fn after(&self, _shape: Shape) -> Fences
        ensures { rows result ≡ [] }
    {
        Fences::none()
    }
}
