// The order of the IBM 370: that of tso, and a load does not pass an earlier store of its own address.
ghost use Rattle.orders.specs.Fences.{rows};
ghost use Rattle.orders.specs.Tables.{ibm_takes, ibm_before, no_fences, IbmKeeps};
ghost use Rattle.std.specs.Prelude.{◌≡◌, []};
ghost use Rattle.orders.specs.Laws.{ibm_fenced};
ghost use Rattle.std.proofs.Common.{rules};

use crate::entries::{Op, Shape};
use crate::fences::Fences;
use crate::order::MemoryOrder;
use crf::fence::Fence;
use crf::instruction::FenceKind;

#[derive(Clone, Copy)]
pub struct Ibm370;

impl MemoryOrder for Ibm370 {
    ghost taken = { λ _. ibm_takes };

    ghost ahead = { λ _. ibm_before };

    ghost behind = { λ _. no_fences };

    ghost keeps = { λ _. IbmKeeps };

    ghost fenced = { λ o. ibm_fenced };

    ghost few = { Prim.search rules };

    fn takes(&self, shape: Shape) -> bool
        ensures { result ≡ ibm_takes shape }
    {
        match shape {
            Shape::Access(access) => access.is_plain(),
            Shape::Barrier(mask) => mask == 4,
        }
    }

    fn before(&self, shape: Shape) -> Fences
        ensures { rows result ≡ ibm_before shape }
    {
        match shape {
            Shape::Access(access) => match access.op {
                Op::Load => Fences::two(
                    Fence::own(FenceKind::Wr, access.address),
                    Fence::all_to(FenceKind::Rr, access.address),
                ),
                Op::Store => Fences::two_to(FenceKind::Rw, FenceKind::Ww, access.address),
            },
            Shape::Barrier(mask) => Fences::of_mask(mask),
        }
    }

    fn after(&self, _shape: Shape) -> Fences
        ensures { rows result ≡ [] }
    {
        Fences::none()
    }
}
