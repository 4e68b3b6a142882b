// The order of the IA-64: acquire accesses come before what follows, release accesses after what goes before.
ghost use Rattle.orders.specs.Fences.{rows};
ghost use Rattle.orders.specs.Tables.{ia_takes, ia_before, ia_after, IaKeeps};
ghost use Rattle.std.specs.Prelude.{◌≡◌};
ghost use Rattle.orders.specs.Laws.{ia_fenced};
ghost use Rattle.std.proofs.Common.{rules};

use crate::entries::{Mark, Op, Shape};
use crate::fences::Fences;
use crate::order::MemoryOrder;
use crf::instruction::FenceKind;

#[derive(Clone, Copy)]
pub struct Ia64;

impl MemoryOrder for Ia64 {
    ghost taken = { λ _. ia_takes };

    ghost ahead = { λ _. ia_before };

    ghost behind = { λ _. ia_after };

    ghost keeps = { λ _. IaKeeps };

    ghost fenced = { λ o. ia_fenced };

    ghost few = { Prim.search rules };

    fn takes(&self, shape: Shape) -> bool
        ensures { result ≡ ia_takes shape }
    {
        match shape {
            Shape::Access(_) => true,
            Shape::Barrier(mask) => mask == 15,
        }
    }

    fn before(&self, shape: Shape) -> Fences
        ensures { rows result ≡ ia_before shape }
    {
        match shape {
            Shape::Access(access) => match (access.mark, access.op) {
                (Mark::Release, Op::Load) => Fences::two_to(
                    FenceKind::Rr,
                    FenceKind::Wr,
                    access.address,
                ),
                (Mark::Release, Op::Store) => Fences::two_to(
                    FenceKind::Rw,
                    FenceKind::Ww,
                    access.address,
                ),
                _ => Fences::none(),
            },
            Shape::Barrier(mask) => Fences::of_mask(mask),
        }
    }

    fn after(&self, shape: Shape) -> Fences
        ensures { rows result ≡ ia_after shape }
    {
        match shape {
            Shape::Access(access) => match (access.mark, access.op) {
                (Mark::Acquire, Op::Load) => Fences::two_from(
                    FenceKind::Rr,
                    FenceKind::Rw,
                    access.address,
                ),
                (Mark::Acquire, Op::Store) => Fences::two_from(
                    FenceKind::Wr,
                    FenceKind::Ww,
                    access.address,
                ),
                _ => Fences::none(),
            },
            Shape::Barrier(_) => Fences::none(),
        }
    }
}
