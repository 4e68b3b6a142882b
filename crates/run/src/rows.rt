// The tables that are lent to a run's calls, and their plain rows.
ghost use Rattle.std.specs.Prelude.{◌≡◌, ◌+◌, ◌*◌, ◌<◌, ◌≤◌, slice_set};
ghost use Rattle.run.specs.Drafts.{room_for};
ghost use Rattle.run.specs.Rows.{no_row, pending_row, spent, grown};
ghost use Rattle.run.specs.Steps.{address_of, bound, row_performed};

use crf::binding::binds;
use crf::instruction::Instruction;

// What is counted for a card: its entries, its instructions, and how many of these are not yet performed.
#[derive(Clone, Copy)]
pub struct CardRecord {
    pub entries: u32,
    pub length: u32,
    pub pending: u32,
}

// A card's copy of the word at an address. Clean: as it was cached or last written back. Dirty: stored into since.
#[derive(Clone, Copy)]
pub enum Cell<W> {
    Absent,
    Clean(W),
    Dirty(W),
}

// An instruction of a card's program, with the number of its entry. Card c has the rows from 256 c on.
#[derive(Clone, Copy)]
pub struct CodeRow<W> {
    pub instruction: Instruction<W>,
    pub entry: u32,
    pub performed: bool,
}

// An accepted step.
#[derive(Clone, Copy)]
pub enum StepRow<W> {
    Unused,
    Performed { card: u32, position: u32 },
    Loaded { card: u32, position: u32, word: W },
    Cached { card: u32, address: u32 },
    WrittenBack { card: u32, address: u32 },
    Purged { card: u32, address: u32 },
}

// The four tables of a running run, as they are lent to each of its steps.
// Kept: each function that takes them `&mut` promises `SameTables`, since today's prover knows what a lent slice holds only by its ghost name.
#[derive(Drop)]
pub struct Tables<'a, W> {
    pub cards: &'a mut [CardRecord],
    pub code: &'a mut [CodeRow<W>],
    pub cells: &'a mut [Cell<W>],
    pub steps: &'a mut [StepRow<W>],
}

impl CardRecord {
    // A card with an empty program.
    pub const EMPTY: CardRecord = CardRecord {
        entries: 0,
        length: 0,
        pending: 0,
    };

    // Whether the card has a place for one more entry of n instructions.
    pub(crate) fn has_room(&self, n: usize) -> bool
        requires { n ≤ 10 }
        ensures { result ≡ room_for self.now n }
    {
        self.entries < 64 && self.length.min(256) as usize + n <= 256
    }

    // One pending instruction fewer.
    pub(crate) fn spend(&mut self)
        ensures { self.new ≡ spent self.old }
    {
        self.pending = self.pending.saturating_sub(1);
    }

    // More entries and instructions, all of them pending; what is past the bounds counts as the bound.
    pub(crate) fn grow(&mut self, entries: u32, instructions: u32)
        requires { (entries < 256) × (instructions < 256) }
        ensures { self.new ≡ grown self.old entries instructions }
    {
        self.entries = self.entries.min(64) + entries;
        self.length = self.length.min(256) + instructions;
        self.pending = self.pending.min(256) + instructions;
    }
}

impl<W: Copy> CodeRow<W> {
    // A row of no program: nothing is left to be performed. A function, since a constant of a generic type has no clause.
    pub fn empty() -> CodeRow<W>
        ensures { result ≡ no_row }
    {
        CodeRow {
            instruction: Instruction::Commit { address: 0 },
            entry: 0,
            performed: true,
        }
    }

    // A pending instruction of an entry.
    pub(crate) fn pending(entry: u32, instruction: Instruction<W>) -> CodeRow<W>
        ensures { result ≡ pending_row entry instruction }
    {
        CodeRow {
            instruction,
            entry,
            performed: false,
        }
    }

    // The row, performed.
    pub(crate) fn done(mut self) -> CodeRow<W>
        ensures { result ≡ row_performed self }
    {
        self.performed = true;
        self
    }

    // The address that the instruction names. Kept: 0 for a fence, as `address_of` says it; a fence asks nothing of the cell there and changes none.
    pub(crate) fn address(&self) -> u32
        ensures { result ≡ address_of self.now.instruction }
    {
        self.instruction.address().unwrap_or(0)
    }

    // Whether the row is pending and binds a later instruction.
    pub(crate) fn holds_back(&self, later: &Instruction<W>) -> bool
        ensures { result ≡ bound self.now later.now }
    {
        !self.performed && binds(&self.instruction, later)
    }
}

// The place of a card's position in the code.
pub(crate) fn code_place(card: u32, position: u32) -> usize
    ensures { result ≡ 256 * card + position }
{
    256 * card as usize + position as usize
}

// Writes a row where there is one.
pub(crate) fn put<T: Copy>(rows: &mut [T], at: usize, row: T)
    ensures { rows.new ≡ slice_set rows.old at row }
{
    if at < rows.len() {
        rows[at] = row;
    }
}
