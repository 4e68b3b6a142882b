// Performing an instruction, without and with a recorded word.
ghost use Rattle.std.specs.Prelude.{◌≡◌, ◌+◌, ◌*◌, ◌<◌, ◌≤◌, length, Some, None, OnOk, slice_set};
ghost use Rattle.run.specs.Runs.{SameTables, world_of};
ghost use Rattle.run.specs.Steps.{card_known, weighed, performed, cell_in, room_in};

use crate::checks::*;
use crate::fault::StepFault;
use crate::rows::*;
use crate::states::Running;
use memory::interface::Memory;
use memory::word::Word;

impl<W: Word, M: Memory<Word = W>> Running<M> {
    // The card's record, if the tables can hold the run and there is such a card.
    // Kept: a card is its number. Places are counted in `usize`, where they can't wrap, so no bound on the number is handed on;
    // a struct of a card and an address, or a position, would be taken apart at each use.
    pub(crate) fn known_card(
        &self,
        tables: &Tables<'_, W>,
        card: u32,
    ) -> Result<CardRecord, StepFault>
        ensures is { result ≡ card_known (world_of M.meaning self.now tables.now) card }
        ensures known { OnOk result ((card < length tables.now.cards.now) × (256 * (card + 1) ≤ length tables.now.code.now)) }
    {
        let count = self.count as usize;
        let places = count * self.memory.size() as usize;
        if tables.cards.len() < count
            || tables.code.len() < 256 * count
            || tables.cells.len() < places
        {
            return Err(StepFault::TooShort);
        }
        if card >= self.count {
            return Err(StepFault::NoSuchCard);
        }
        Ok(tables.cards[card as usize])
    }

    // The place of a card's cell of an address.
    pub(crate) fn place(&self, card: u32, address: u32) -> usize
        ensures { result ≡ card * length (M.meaning self.now.memory) + address }
    {
        card as usize * self.memory.size() as usize + address as usize
    }

    // The cell of a card's address, if there is one.
    pub(crate) fn cell(
        &self,
        tables: &Tables<'_, W>,
        card: u32,
        address: u32,
    ) -> Result<Cell<W>, StepFault>
        ensures is { result ≡ cell_in tables.now.cells.now (length (M.meaning self.now.memory)) card address }
        ensures known { OnOk result (address < length (M.meaning self.now.memory)) }
    {
        let size = self.memory.size();
        if address >= size {
            return Err(StepFault::NoSuchAddress);
        }
        // The size is asked once: that of a memory in layers takes time.
        let at = card as usize * size as usize + address as usize;
        let cell = tables.cells.get(at).copied();
        Ok(cell.unwrap_or(Cell::Absent))
    }

    // The step list has a row for one more step.
    pub(crate) fn room(&self, tables: &Tables<'_, W>) -> Result<(), StepFault>
        ensures is { result ≡ room_in self.now.used (length tables.now.steps.now) }
        ensures known { OnOk result (self.now.used < 4096) }
    {
        if (self.used as usize) < tables.steps.len().min(4096) {
            Ok(())
        } else {
            Err(StepFault::StepsFull)
        }
    }

    // Puts a row into the step list.
    pub(crate) fn note(&mut self, steps: &mut [StepRow<W>], row: StepRow<W>)
        requires { self.old.used < 4096 }
        ensures steps { steps.new ≡ slice_set steps.old self.old.used row }
        ensures used { self.new.used ≡ self.old.used + 1 }
        ensures count { self.new.count ≡ self.old.count }
        ensures raw { self.new.raw ≡ self.old.raw }
        ensures memory { self.new.memory ≡ self.old.memory }
    {
        put(steps, self.used as usize, row);
        self.used += 1;
    }

    // What performing an instruction would do. Whether the step list has room is asked afterwards.
    fn decide(
        &self,
        tables: &Tables<'_, W>,
        card: u32,
        position: u32,
        recorded: Option<W>,
    ) -> Result<Plan<W>, StepFault>
        ensures is { result ≡ weighed W.alike (world_of M.meaning self.now tables.now) card position recorded }
        ensures known { OnOk result (card < length tables.now.cards.now) }
    {
        let held = self.known_card(tables, card)?;
        let row = ready_row(tables, held, card, position)?;
        let cell = self.cell(tables, card, row.address());
        let effect = Effect::of(&row.instruction, cell.unwrap_or(Cell::Absent))?;
        effect.agrees(recorded)?;
        Ok(Plan { row, effect })
    }

    fn perform_if(
        &mut self,
        tables: &mut Tables<'_, W>,
        card: u32,
        position: u32,
        recorded: Option<W>,
    ) -> Result<Option<W>, StepFault>
        ensures world { record { answer = result; after = world_of M.meaning self.new tables.new } ≡ performed W.alike (world_of M.meaning self.old tables.old) card position recorded }
        ensures same { self.new.memory ≡ self.old.memory }
        ensures tables { SameTables tables.old tables.new }
    {
        let Plan { row, effect } = self.decide(tables, card, position, recorded)?;
        self.room(tables)?;
        let at = self.place(card, row.address());
        tables.cards[card as usize].spend();
        effect.change(tables.cells, at);
        put(tables.code, code_place(card, position), row.done());
        self.note(tables.steps, effect.step_row(card, position));
        Ok(effect.answer())
    }

    // Performs an instruction of a card; a Loadl answers its word.
    pub fn perform(
        &mut self,
        tables: &mut Tables<'_, W>,
        card: u32,
        position: u32,
    ) -> Result<Option<W>, StepFault>
        ensures world { record { answer = result; after = world_of M.meaning self.new tables.new } ≡ performed W.alike (world_of M.meaning self.old tables.old) card position None }
        ensures same { self.new.memory ≡ self.old.memory }
        ensures tables { SameTables tables.old tables.new }
    {
        self.perform_if(tables, card, position, None)
    }

    // Performs a Loadl of a card, if it loads the recorded word.
    pub fn perform_recorded(
        &mut self,
        tables: &mut Tables<'_, W>,
        card: u32,
        position: u32,
        recorded: W,
    ) -> Result<Option<W>, StepFault>
        ensures world { record { answer = result; after = world_of M.meaning self.new tables.new } ≡ performed W.alike (world_of M.meaning self.old tables.old) card position (Some recorded) }
        ensures same { self.new.memory ≡ self.old.memory }
        ensures tables { SameTables tables.old tables.new }
    {
        self.perform_if(tables, card, position, Some(recorded))
    }
}
