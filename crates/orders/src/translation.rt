// The translation of an entry into instructions.
ghost use Rattle.std.specs.Prelude.{◌≡◌, ◌≤◌, length, map, slice_get};
ghost use Rattle.std.specs.Iterator.{YieldsFirst, item_count};
ghost use Rattle.crf.specs.Fences.{fence_row};
ghost use Rattle.orders.specs.Fences.{rows};
ghost use Rattle.orders.specs.Translation.{shape_of, core, translated, instructions, left, Translates};

use crate::entries::{Access, Entry, Op, Shape};
use crate::fences::Fences;
use crate::order::MemoryOrder;
use crf::instruction::Instruction;

// An entry with the fences that stand before and after it.
#[derive(Clone, Copy)]
pub struct Translation<W> {
    pub before: Fences,
    pub entry: Entry<W>,
    pub after: Fences,
}

// Why an entry is not translated.
#[derive(Clone, Copy, PartialEq, Eq, Debug)]
pub enum TranslationFault {
    NotTaken,
}

impl<W: Copy> Entry<W> {
    // The entry as a memory order sees it.
    pub fn shape(&self) -> Shape
        ensures { result ≡ shape_of self.now }
    {
        match *self {
            Entry::Load { mark, address } => Shape::Access(Access {
                op: Op::Load,
                mark,
                address,
            }),
            Entry::Store { mark, address, .. } => Shape::Access(Access {
                op: Op::Store,
                mark,
                address,
            }),
            Entry::Barrier { mask } => Shape::Barrier(mask),
        }
    }

    // How many instructions the entry itself becomes, without fences.
    fn core_count(&self) -> usize
        ensures count { result ≡ length (core self.now) }
        ensures few { result ≤ 2 }
    {
        match self {
            Entry::Load { .. } | Entry::Store { .. } => 2,
            Entry::Barrier { .. } => 0,
        }
    }

    fn core_at(&self, k: usize) -> Option<Instruction<W>>
        ensures { result ≡ slice_get (core self.now) k }
    {
        match (*self, k) {
            (Entry::Load { address, .. }, 0) => Some(Instruction::Reconcile { address }),
            (Entry::Load { address, .. }, 1) => Some(Instruction::Loadl { address }),
            (Entry::Store { address, word, .. }, 0) => Some(Instruction::Storel { address, word }),
            (Entry::Store { address, .. }, 1) => Some(Instruction::Commit { address }),
            _ => None,
        }
    }
}

fn fence_at<W: Copy>(fences: &Fences, k: usize) -> Option<Instruction<W>>
    ensures { result ≡ slice_get (map fence_row (rows fences.now)) k }
{
    fences.get(k).map(|fence| fence.into())
}

// Kept: an instruction is made when its place is asked for. A function that fills an `ArrayVec<Instruction<W>, 10>` owes that its size is below 2 ^ 63, and that of a `W` isn't known.
impl<W: Copy> Translation<W> {
    // How many instructions the entry becomes.
    pub fn count(&self) -> usize
        ensures count { result ≡ length (instructions self.now) }
        ensures few { result ≤ 10 }
    {
        self.before.count() + self.entry.core_count() + self.after.count()
    }

    // The instruction at a place of the translation, counted from 0.
    pub fn get(&self, k: usize) -> Option<Instruction<W>>
        ensures { result ≡ slice_get (instructions self.now) k }
    {
        let before = self.before.count();
        let core = self.entry.core_count();
        if k < before {
            fence_at(&self.before, k)
        } else if k - before < core {
            self.entry.core_at(k - before)
        } else {
            fence_at(&self.after, k - before - core)
        }
    }
}

// Hands out the instructions of a translation, one after the other.
#[derive(Clone, Drop)]
pub struct Instructions<'a, W> {
    translation: &'a Translation<W>,
    at: usize,
}

impl<'a, W: Copy> Iterator for Instructions<'a, W> {
    type Item = Instruction<W>;

    ghost next_gives = { YieldsFirst left };

    ghost remaining = { item_count left };

    fn next(&mut self) -> Option<Instruction<W>> {
        let at = self.at;
        if at >= self.translation.count() {
            return None;
        }
        self.at = at + 1;
        self.translation.get(at)
    }
}

impl<'a, W: Copy> IntoIterator for &'a Translation<W> {
    type Item = Instruction<W>;

    type IntoIter = Instructions<'a, W>;

    ghost into_iter_gives = { λ translation handed. left handed ≡ instructions translation.now };

    fn into_iter(self) -> Instructions<'a, W> {
        Instructions {
            translation: self,
            at: 0,
        }
    }
}

// The entry's instructions under a memory order that takes it.
pub fn translate<W: Copy, O: MemoryOrder>(
    order: &O,
    entry: Entry<W>,
) -> Result<Translation<W>, TranslationFault>
    ensures { Translates (O.taken order.now (shape_of entry)) (translated (O.ahead order.now) (O.behind order.now) entry) result }
{
    let shape = entry.shape();
    if !order.takes(shape) {
        return Err(TranslationFault::NotTaken);
    }
    Ok(Translation {
        before: order.before(shape),
        entry,
        after: order.after(shape),
    })
}
