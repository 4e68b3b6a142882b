// What performing an instruction asks, test by test, in the order of the refusals.
ghost use Rattle.std.specs.Prelude.{◌≡◌, ◌+◌, ◌*◌, ◌≤◌, length};
ghost use Rattle.std.specs.List.{position};
ghost use Rattle.run.specs.Steps.{bound, binder, unbound_by, row_ready, acted, agreed, answered, cells_after, step_of};

use crate::fault::StepFault;
use crate::rows::*;
use crf::instruction::Instruction;
use memory::word::Word;

// What performing an instruction does: loads a word, stores one, or nothing.
#[derive(Clone, Copy)]
pub(crate) enum Effect<W> {
    Loads(W),
    Stores(W),
    Passes,
}

// What an accepted perform does: the row, and its effect.
#[derive(Clone, Copy)]
pub(crate) struct Plan<W> {
    pub(crate) row: CodeRow<W>,
    pub(crate) effect: Effect<W>,
}

impl<W: Word> Effect<W> {
    // What an instruction needs of its cell, and what it does.
    pub(crate) fn of(instruction: &Instruction<W>, cell: Cell<W>) -> Result<Effect<W>, StepFault>
        ensures { result ≡ acted instruction.now cell }
    {
        match (*instruction, cell) {
            (Instruction::Loadl { .. }, Cell::Clean(word) | Cell::Dirty(word)) => {
                Ok(Effect::Loads(word))
            }
            (Instruction::Storel { word, .. }, Cell::Clean(_) | Cell::Dirty(_)) => {
                Ok(Effect::Stores(word))
            }
            (Instruction::Commit { .. }, Cell::Clean(_) | Cell::Absent)
            | (Instruction::Reconcile { .. }, Cell::Dirty(_) | Cell::Absent)
            | (Instruction::Fence { .. }, _) => Ok(Effect::Passes),
            _ => Err(StepFault::CellUnfit),
        }
    }

    // A recorded word, if there is one, is the word loaded.
    pub(crate) fn agrees(&self, recorded: Option<W>) -> Result<(), StepFault>
        ensures { result ≡ agreed W.alike recorded self.now }
    {
        let Some(recorded) = recorded else {
            return Ok(());
        };
        match self {
            Effect::Loads(loaded) if recorded.same(loaded) => Ok(()),
            _ => Err(StepFault::WordDiffers),
        }
    }

    // The word that performing answers: that of a Loadl.
    pub(crate) fn answer(&self) -> Option<W>
        ensures { result ≡ answered self.now }
    {
        match *self {
            Effect::Loads(word) => Some(word),
            Effect::Stores(_) | Effect::Passes => None,
        }
    }

    // Changes the cell: a Storel leaves it dirty with its word.
    pub(crate) fn change(&self, cells: &mut [Cell<W>], at: usize)
        ensures { cells.new ≡ cells_after cells.old at self.now }
    {
        if let Effect::Stores(word) = *self {
            put(cells, at, Cell::Dirty(word));
        }
    }

    // The row of the step list.
    pub(crate) fn step_row(&self, card: u32, position: u32) -> StepRow<W>
        ensures { result ≡ step_of card position self.now }
    {
        match *self {
            Effect::Loads(word) => StepRow::Loaded {
                card,
                position,
                word,
            },
            Effect::Stores(_) | Effect::Passes => StepRow::Performed { card, position },
        }
    }
}

// The lowest place of the rows that is pending and binds a later instruction.
fn lowest_binder<W: Word>(rows: &[CodeRow<W>], later: Instruction<W>) -> Option<usize>
    ensures { result ≡ position (λ row. bound row later) rows.now }
{
    rows.iter().position(|row| row.holds_back(&later))
}

fn unbound<W: Word>(rows: &[CodeRow<W>], later: Instruction<W>) -> Result<(), StepFault>
    requires { length rows.now ≤ 256 }
    ensures { result ≡ unbound_by (binder rows.now later 0) }
{
    match lowest_binder(rows, later) {
        Some(binder) => Err(StepFault::Bound(binder as u32)),
        None => Ok(()),
    }
}

// The row at a card's position, if it is pending and nothing earlier and pending binds it.
pub(crate) fn ready_row<W: Word>(
    tables: &Tables<'_, W>,
    held: CardRecord,
    card: u32,
    position: u32,
) -> Result<CodeRow<W>, StepFault>
    requires { 256 * (card + 1) ≤ length tables.now.code.now }
    ensures { result ≡ row_ready tables.now.code.now held card position }
{
    if position >= held.length.min(256) {
        return Err(StepFault::NoSuchPosition);
    }
    let first = code_place(card, 0);
    let at = code_place(card, position);
    let row = tables.code[at];
    if row.performed {
        return Err(StepFault::AlreadyPerformed);
    }
    unbound(&tables.code[first..at], row.instruction)?;
    Ok(row)
}
