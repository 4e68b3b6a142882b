// Sequential consistency: keeps every pair.
ghost use Rattle.orders.specs.Fences.{rows};
ghost use Rattle.orders.specs.Tables.{sc_takes, sc_before, no_fences, ScKeeps};
ghost use Rattle.std.specs.Prelude.{◌≡◌, []};
ghost use Rattle.orders.specs.Laws.{sc_fenced};
ghost use Rattle.std.proofs.Common.{rules};

use crate::entries::{Op, Shape};
use crate::fences::Fences;
use crate::order::MemoryOrder;
use crf::instruction::FenceKind;

#[derive(Clone, Copy)]
pub struct Sc;

impl MemoryOrder for Sc {
    ghost taken = { λ _. sc_takes };

    ghost ahead = { λ _. sc_before };

    ghost behind = { λ _. no_fences };

    ghost keeps = { λ _. ScKeeps };

    ghost fenced = { λ o. sc_fenced };

    ghost few = { Prim.search rules };

    fn takes(&self, shape: Shape) -> bool
        ensures { result ≡ sc_takes shape }
    {
        match shape {
            Shape::Access(access) => access.is_plain(),
            Shape::Barrier(_) => false,
        }
    }

    fn before(&self, shape: Shape) -> Fences
        ensures { rows result ≡ sc_before shape }
    {
        match shape {
            Shape::Access(access) => match access.op {
                Op::Load => Fences::two_to(FenceKind::Rr, FenceKind::Wr, access.address),
                Op::Store => Fences::two_to(FenceKind::Rw, FenceKind::Ww, access.address),
            },
            Shape::Barrier(mask) => Fences::of_mask(mask),
        }
    }

    fn after(&self, _shape: Shape) -> Fences
        ensures { rows result ≡ [] }
    {
        Fences::none()
    }
}
