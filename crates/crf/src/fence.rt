// A fence between two spans of addresses.
ghost use Rattle.std.specs.Prelude.{◌≡◌};
ghost use Rattle.crf.specs.Fences.{row, row_of, fence_row, star_to, from_star, star_star, at_at};

use crate::instruction::{FenceKind, Instruction};
use crate::span::Span;

#[derive(Clone, Copy, Default)]
pub struct Fence {
    pub kind: FenceKind,
    pub first: Span,
    pub second: Span,
}

impl Fence {
    fn between(kind: FenceKind, first: Span, second: Span) -> Fence
        ensures { row_of result ≡ row kind first.low first.high second.low second.high }
    {
        Fence {
            kind,
            first,
            second,
        }
    }

    // Between all addresses and `address`.
    pub fn all_to(kind: FenceKind, address: u32) -> Fence
        ensures { row_of result ≡ star_to kind address }
    {
        Fence::between(kind, Span::ALL, Span::read(address, address))
    }

    // Between `address` and all addresses.
    pub fn to_all(kind: FenceKind, address: u32) -> Fence
        ensures { row_of result ≡ from_star kind address }
    {
        Fence::between(kind, Span::read(address, address), Span::ALL)
    }

    // Between `address` and itself.
    pub fn own(kind: FenceKind, address: u32) -> Fence
        ensures { row_of result ≡ at_at kind address }
    {
        let own = Span::read(address, address);
        Fence::between(kind, own, own)
    }

    // Between all addresses and all addresses.
    pub fn all(kind: FenceKind) -> Fence
        ensures { row_of result ≡ star_star kind }
    {
        Fence::between(kind, Span::ALL, Span::ALL)
    }
}

// The fence as a table row.
impl<W> From<Fence> for Instruction<W> {
    ghost from_gives = { λ fence instruction. instruction ≡ fence_row (row_of fence) };

    fn from(fence: Fence) -> Instruction<W> {
        Instruction::Fence {
            kind: fence.kind,
            first: fence.first.into(),
            second: fence.second.into(),
        }
    }
}
