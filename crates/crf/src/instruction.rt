// The instructions, as plain table rows.
ghost use Rattle.std.specs.Prelude.{◌≡◌};
ghost use Rattle.crf.specs.Addresses.{address_named};

use crate::span::SpanEnds;

// The first letter names the accesses before the fence, the second those after it: r loads, w stores.
#[derive(Clone, Copy, Default)]
pub enum FenceKind {
    #[default]
    Rr,
    Rw,
    Wr,
    Ww,
}

// A fence's row holds the ends of its two spans.
#[derive(Clone, Copy)]
pub enum Instruction<W> {
    Loadl {
        address: u32,
    },
    Storel {
        address: u32,
        word: W,
    },
    Commit {
        address: u32,
    },
    Reconcile {
        address: u32,
    },
    Fence {
        kind: FenceKind,
        first: SpanEnds,
        second: SpanEnds,
    },
}

impl<W: Copy> Instruction<W> {
    // The address that the instruction names; a fence names none.
    pub fn address(&self) -> Option<u32>
        ensures { result ≡ address_named self.now }
    {
        match *self {
            Instruction::Loadl { address }
            | Instruction::Storel { address, .. }
            | Instruction::Commit { address }
            | Instruction::Reconcile { address } => Some(address),
            Instruction::Fence { .. } => None,
        }
    }
}
