// The entries of a run file, added to a draft one after the other.
ghost use Rattle.std.specs.Prelude.{◌≡◌};
ghost use Rattle.run.specs.Runs.{draft_of};
ghost use Rattle.audit.specs.Records.{entry_one};
ghost use Rattle.audit.specs.Turns.{worked, stop_in};

use crate::fault::{RowFault, Stop};
use files::records::{BadRecord, CardEntry};
use files::run_file::RunFile;
use memory::interface::Memory;
use orders::chosen::AnyOrder;
use run::rows::{CardRecord, CodeRow};
use run::states::Draft;

// Adds the n-th entry of the file.
fn take_entry<M: Memory<Word = u32>>(
    draft: &mut Draft<M, AnyOrder>,
    cards: &mut [CardRecord],
    code: &mut [CodeRow<u32>],
    file: &RunFile<'_>,
    n: u32,
) -> Result<(), RowFault>
    ensures taken { record { answer = result; after = draft_of M.meaning draft.new cards.new code.new } ≡ entry_one draft.old.order file.now.entries.now n (draft_of M.meaning draft.old cards.old code.old) }
    ensures same { draft.new ≡ draft.old }
{
    let CardEntry { card, entry } = file.entry(n as usize)?;
    Ok(draft.add(cards, code, u32::from(card), entry)?)
}

// Adds the entries in turn, up to the first that is refused.
pub(crate) fn take_entries<M: Memory<Word = u32>>(
    draft: &mut Draft<M, AnyOrder>,
    cards: &mut [CardRecord],
    code: &mut [CodeRow<u32>],
    file: &RunFile<'_>,
) -> Result<(), Stop>
    ensures worked { record { after = draft_of M.meaning draft.new cards.new code.new; stopped = stop_in result } ≡ worked (entry_one draft.old.order file.now.entries.now) file.now.header.entries 0 (draft_of M.meaning draft.old cards.old code.old) }
    ensures same { draft.new ≡ draft.old }
{
    // Kept: a loop of one line, as in take_steps; one function over a closure for both would need a relation of the closure's steps, longer than the two loops.
    for n in 0..file.header.entries {
        take_entry(draft, cards, code, file, n).map_err(|fault| BadRecord { place: n, fault })?;
    }
    Ok(())
}
