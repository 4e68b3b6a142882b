// The background steps: cache, write back and purge.
ghost use Rattle.std.specs.Prelude.{◌≡◌, ◌<◌, length, OnOk};
ghost use Rattle.run.specs.Runs.{SameTables, world_of};
ghost use Rattle.run.specs.Steps.{reached, cached, written_back, purged};

use crate::fault::StepFault;
use crate::rows::*;
use crate::states::Running;
use memory::interface::Memory;
use memory::word::Word;

impl<W: Word, M: Memory<Word = W>> Running<M> {
    // The cell of a card's address, if the tables can hold the run and there is such a cell.
    fn reach(&self, tables: &Tables<'_, W>, card: u32, address: u32) -> Result<Cell<W>, StepFault>
        ensures is { result ≡ reached (world_of M.meaning self.now tables.now) card address }
        ensures known { OnOk result (address < length (M.meaning self.now.memory)) }
    {
        self.known_card(tables, card)?;
        self.cell(tables, card, address)
    }

    // Copies a word of the memory into an absent cell, which is then clean.
    pub fn cache(
        &mut self,
        tables: &mut Tables<'_, W>,
        card: u32,
        address: u32,
    ) -> Result<(), StepFault>
        ensures world { record { answer = result; after = world_of M.meaning self.new tables.new } ≡ cached (world_of M.meaning self.old tables.old) card address }
        ensures same { self.new.memory ≡ self.old.memory }
        ensures tables { SameTables tables.old tables.new }
    {
        let Cell::Absent = self.reach(tables, card, address)? else {
            return Err(StepFault::CellUnfit);
        };
        self.room(tables)?;
        let word = self.memory.read(address)?;
        put(tables.cells, self.place(card, address), Cell::Clean(word));
        self.note(tables.steps, StepRow::Cached { card, address });
        Ok(())
    }

    // Writes a dirty cell's word to the memory; the cell is then clean.
    pub fn write_back(
        &mut self,
        tables: &mut Tables<'_, W>,
        card: u32,
        address: u32,
    ) -> Result<(), StepFault>
        ensures world { record { answer = result; after = world_of M.meaning self.new tables.new } ≡ written_back (world_of M.meaning self.old tables.old) card address }
        ensures fixed { M.fixed self.new.memory ≡ M.fixed self.old.memory }
        ensures tables { SameTables tables.old tables.new }
    {
        let Cell::Dirty(word) = self.reach(tables, card, address)? else {
            return Err(StepFault::CellUnfit);
        };
        self.room(tables)?;
        self.memory.write(address, word)?;
        put(tables.cells, self.place(card, address), Cell::Clean(word));
        self.note(tables.steps, StepRow::WrittenBack { card, address });
        Ok(())
    }

    // Drops a clean cell's copy; the cell is then absent.
    pub fn purge(
        &mut self,
        tables: &mut Tables<'_, W>,
        card: u32,
        address: u32,
    ) -> Result<(), StepFault>
        ensures world { record { answer = result; after = world_of M.meaning self.new tables.new } ≡ purged (world_of M.meaning self.old tables.old) card address }
        ensures same { self.new.memory ≡ self.old.memory }
        ensures tables { SameTables tables.old tables.new }
    {
        let Cell::Clean(_) = self.reach(tables, card, address)? else {
            return Err(StepFault::CellUnfit);
        };
        self.room(tables)?;
        put(tables.cells, self.place(card, address), Cell::Absent);
        self.note(tables.steps, StepRow::Purged { card, address });
        Ok(())
    }
}
