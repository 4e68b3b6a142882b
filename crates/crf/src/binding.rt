// Which earlier pending instruction of a card keeps a later one waiting.
ghost use Rattle.std.specs.Prelude.{◌≡◌};
ghost use Rattle.crf.specs.Binding.{binding};

use crate::instruction::{FenceKind, Instruction};

pub fn binds<W>(earlier: &Instruction<W>, later: &Instruction<W>) -> bool
    ensures { result ≡ binding earlier.now later.now }
{
    match (earlier, later) {
        (Instruction::Loadl { address: a }, Instruction::Storel { address: b, .. })
        | (Instruction::Storel { address: a, .. }, Instruction::Loadl { address: b })
        | (Instruction::Storel { address: a, .. }, Instruction::Storel { address: b, .. })
        | (Instruction::Storel { address: a, .. }, Instruction::Commit { address: b })
        | (Instruction::Reconcile { address: a }, Instruction::Loadl { address: b })
            if a == b => true,
        (
            Instruction::Loadl { address },
            Instruction::Fence {
                kind: FenceKind::Rr | FenceKind::Rw,
                first,
                ..
            },
        )
        | (
            Instruction::Commit { address },
            Instruction::Fence {
                kind: FenceKind::Wr | FenceKind::Ww,
                first,
                ..
            },
        ) if first.holds(*address) => true,
        (
            Instruction::Fence {
                kind: FenceKind::Rr | FenceKind::Wr,
                second,
                ..
            },
            Instruction::Reconcile { address },
        )
        | (
            Instruction::Fence {
                kind: FenceKind::Rw | FenceKind::Ww,
                second,
                ..
            },
            Instruction::Storel { address, .. },
        ) if second.holds(*address) => true,
        _ => false,
    }
}
