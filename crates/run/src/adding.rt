// Adding entries and raw instructions to a draft.
// Kept: the card records and the code alone. A `Tables` would ask the caller for cells and steps, which a draft does not have yet,
// and a struct of the two could not be lent out of a `Tables`: a struct of structs of `&mut` slices is not covered.
ghost use Rattle.std.specs.Prelude.{◌≡◌, ◌+◌, ◌<◌, ◌≤◌, length, OnOk};
ghost use Rattle.orders.specs.Translation.{instructions};
ghost use Rattle.run.specs.Drafts.{card_held, near, inside, added, raw_added};
ghost use Rattle.run.specs.Rows.{laid, pending_rows};
ghost use Rattle.run.specs.Runs.{draft_of};

use crate::fault::ProgramFault;
use crate::rows::*;
use crate::states::Draft;
use crf::instruction::Instruction;
use memory::interface::Memory;
use memory::word::Word;
use orders::entries::Entry;
use orders::order::MemoryOrder;
use orders::translation::{Translation, translate};

fn is_near<W: Word>(size: u32, entry: Entry<W>) -> bool
    ensures { result ≡ near size entry }
{
    match entry {
        Entry::Load { address, .. } | Entry::Store { address, .. } => address < size,
        Entry::Barrier { .. } => true,
    }
}

fn is_inside<W: Word>(size: u32, instruction: Instruction<W>) -> bool
    ensures { result ≡ inside size instruction }
{
    instruction.address().is_none_or(|address| address < size)
}

// Puts the instructions of an entry one after the other.
fn lay<W: Word>(code: &mut [CodeRow<W>], at: usize, number: u32, translation: &Translation<W>)
    requires { at + length (instructions translation.now) ≤ 4096 }
    ensures { code.new ≡ laid code.old at (pending_rows number (instructions translation.now)) }
{
    for (k, instruction) in translation.into_iter().enumerate() {
        put(code, at + k, CodeRow::pending(number, instruction));
    }
}

impl<W: Word, M: Memory<Word = W>, O: MemoryOrder> Draft<M, O> {
    // The card's record, if the tables can hold the programs and there is such a card.
    fn card_held(
        &self,
        cards: &[CardRecord],
        code: &[CodeRow<W>],
        card: u32,
    ) -> Result<CardRecord, ProgramFault>
        ensures is { result ≡ card_held (draft_of M.meaning self.now cards.now code.now) card }
        ensures known { OnOk result ((card < 8) × (card < length cards.now)) }
    {
        let count = self.count as usize;
        if cards.len() < count || code.len() < 256 * count {
            return Err(ProgramFault::TooShort);
        }
        if card >= self.count {
            return Err(ProgramFault::NoSuchCard);
        }
        Ok(cards[card as usize])
    }

    // Adds an entry to a card's program.
    pub fn add(
        &mut self,
        cards: &mut [CardRecord],
        code: &mut [CodeRow<W>],
        card: u32,
        entry: Entry<W>,
    ) -> Result<(), ProgramFault>
        ensures draft { record { answer = result; after = draft_of M.meaning self.new cards.new code.new } ≡ added (O.taken self.old.order) (O.ahead self.old.order) (O.behind self.old.order) (draft_of M.meaning self.old cards.old code.old) card entry }
        ensures same { self.new ≡ self.old }
    {
        let held = self.card_held(cards, code, card)?;
        if !is_near(self.memory.size(), entry) {
            return Err(ProgramFault::NoSuchAddress);
        }
        let translation = translate(&self.order, entry)?;
        if !held.has_room(translation.count()) {
            return Err(ProgramFault::NoPlace);
        }
        let at = code_place(card, held.length.min(256));
        lay(code, at, held.entries, &translation);
        cards[card as usize].grow(1, translation.count() as u32);
        Ok(())
    }

    // Adds an instruction that is of no entry. A run with one has no order.
    pub fn add_raw(
        &mut self,
        cards: &mut [CardRecord],
        code: &mut [CodeRow<W>],
        card: u32,
        instruction: Instruction<W>,
    ) -> Result<(), ProgramFault>
        ensures draft { record { answer = result; after = draft_of M.meaning self.new cards.new code.new } ≡ raw_added (draft_of M.meaning self.old cards.old code.old) card instruction }
        ensures memory { self.new.memory ≡ self.old.memory }
        ensures order { self.new.order ≡ self.old.order }
    {
        let held = self.card_held(cards, code, card)?;
        if !is_inside(self.memory.size(), instruction) {
            return Err(ProgramFault::NoSuchAddress);
        }
        if held.length >= 256 {
            return Err(ProgramFault::NoPlace);
        }
        let at = code_place(card, held.length);
        put(code, at, CodeRow::pending(held.entries, instruction));
        cards[card as usize].grow(0, 1);
        self.raw = true;
        Ok(())
    }
}
