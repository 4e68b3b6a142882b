// A draft is opened and started; a running run is closed; each state gives its memory back.
ghost use Rattle.std.specs.Prelude.{◌≡◌, ◌*◌, ◌≤◌, false, length, Ok, Err, MatchResult, OnOk};
ghost use Rattle.run.specs.Drafts.{openable, records_opened, startable};
ghost use Rattle.run.specs.Rows.{filled, no_cell};

use crate::fault::LifeFault;
use crate::rows::{CardRecord, Cell};
use crate::states::*;
use memory::interface::Memory;
use memory::word::Word;
use orders::order::MemoryOrder;

// Whether a draft of that many cards over that many words may be opened.
fn may_open(count: u32, size: u32, rows: usize) -> Result<(), LifeFault>
    ensures is { result ≡ openable count size rows }
    ensures known { OnOk result ((count ≤ rows) × (count ≤ 8)) }
{
    if count.min(8) as usize > rows {
        return Err(LifeFault::TooShort);
    }
    if (1..=8).contains(&count) && (1..=1024).contains(&size) {
        Ok(())
    } else {
        Err(LifeFault::OutOfBounds)
    }
}

// A refused opening hands back what it was handed.
#[derive(Drop)]
pub struct Unopened<M, O> {
    pub memory: M,
    pub order: O,
    pub why: LifeFault,
}

// A refused start hands the draft back.
#[derive(Drop)]
pub struct Unstarted<M, O> {
    pub draft: Draft<M, O>,
    pub why: LifeFault,
}

impl<W: Word, M: Memory<Word = W>, O: MemoryOrder> Draft<M, O> {
    // An empty draft over a memory, whose words are the initial words.
    // Kept: the card records alone. A `Tables` would ask the caller for rows that an opening neither reads nor writes.
    pub fn open(
        memory: M,
        order: O,
        count: u32,
        cards: &mut [CardRecord],
    ) -> Result<Draft<M, O>, Unopened<M, O>>
        ensures table { cards.new ≡ records_opened count cards.old (openable count (length (M.meaning memory)) (length cards.old)) }
        ensures is { MatchResult result (λ d. (Ok tt ≡ openable count (length (M.meaning memory)) (length cards.old)) × (d.memory ≡ memory) × (d.order ≡ order) × (d.count ≡ count) × (d.raw ≡ false)) (λ u. (Err u.why ≡ openable count (length (M.meaning memory)) (length cards.old)) × (u.memory ≡ memory) × (u.order ≡ order)) }
    {
        // Kept: `?` would lose the memory and the order, which a refusal hands back.
        if let Err(why) = may_open(count, memory.size(), cards.len()) {
            return Err(Unopened { memory, order, why });
        }
        cards[..count as usize].fill(CardRecord::EMPTY);
        Ok(Draft {
            memory,
            order,
            count,
            raw: false,
        })
    }

    // A running run of the draft's programs, with all cells absent and no step taken.
    // Kept: the cells alone, for the same reason.
    pub fn start(self, cells: &mut [Cell<W>]) -> Result<Running<M>, Unstarted<M, O>>
        ensures { MatchResult result (λ run. (Ok tt ≡ startable self.count (length (M.meaning self.memory)) (length cells.old)) × (run.memory ≡ self.memory) × (run.count ≡ self.count) × (run.raw ≡ self.raw) × (run.used ≡ 0) × (cells.new ≡ filled (self.count * length (M.meaning self.memory)) no_cell cells.old)) (λ u. (Err u.why ≡ startable self.count (length (M.meaning self.memory)) (length cells.old)) × (u.draft ≡ self) × (cells.new ≡ cells.old)) }
    {
        let needed = self.count as usize * self.memory.size() as usize;
        if needed > cells.len() {
            return Err(Unstarted {
                draft: self,
                why: LifeFault::TooShort,
            });
        }
        cells[..needed].fill(Cell::Absent);
        let Draft {
            memory,
            order: _,
            count,
            raw,
        } = self;
        Ok(Running {
            memory,
            count,
            raw,
            used: 0,
        })
    }

    pub fn into_memory(self) -> M
        ensures { result ≡ self.memory }
    {
        let Draft {
            memory,
            order: _,
            count: _,
            raw: _,
        } = self;
        memory
    }
}

impl<W: Word, M: Memory<Word = W>> Running<M> {
    // How many steps were accepted so far.
    pub fn used(&self) -> u32
        ensures { result ≡ self.now.used }
    {
        self.used
    }

    // Ends the run, at any moment.
    pub fn close(self) -> Closed<M>
        ensures { result.run ≡ self }
    {
        Closed { run: self }
    }
}

impl<W: Word, M: Memory<Word = W>> Closed<M> {
    pub fn into_memory(self) -> M
        ensures { result ≡ self.run.memory }
    {
        let Closed {
            run: Running {
                memory,
                count: _,
                raw: _,
                used: _,
            },
        } = self;
        memory
    }
}
