// The records of a run file, worked over any memory that holds the initial words.
ghost use Rattle.std.specs.Prelude.{◌≡◌, ◌*◌, ◌≤◌, length};
ghost use Rattle.run.specs.Runs.{SameTables, draft_of, world_of};
ghost use Rattle.files.specs.Header.{order_meant};
ghost use Rattle.audit.specs.Audit.{tables_of, started, steps_audited, records_audited};

use crate::entries::take_entries;
use crate::fault::FileFault;
use crate::sound::SoundFile;
use crate::steps::take_steps;
use crate::verdict::Verdict;
use files::run_file::RunFile;
use memory::interface::Memory;
use orders::chosen::AnyOrder;
use run::rows::Tables;
use run::states::{Draft, Running};

// What the records come to, and the run's memory.
pub(crate) struct Done<M> {
    pub(crate) memory: M,
    pub(crate) verdict: Verdict,
}

// The steps, by a running run.
fn run_steps<M: Memory<Word = u32>>(
    mut run: Running<M>,
    tables: &mut Tables<'_, u32>,
    file: &RunFile<'_>,
) -> Done<M>
    ensures audited { record { verdict = result.verdict; left = tables_of (M.meaning result.memory) tables.new } ≡ steps_audited file.now.steps.now file.now.header.steps (world_of M.meaning run tables.old) }
    ensures tables { SameTables tables.old tables.new }
{
    let stopped = take_steps(&mut run, tables, file);
    let used = run.used();
    Done {
        memory: run.close().into_memory(),
        verdict: stopped.map(|()| used).map_err(FileFault::Step),
    }
}

// All records of the file, over a memory that holds its initial words: the entries, and then the steps.
pub(crate) fn work_records<M: Memory<Word = u32> + Drop>(
    memory: M,
    tables: &mut Tables<'_, u32>,
    sound: &SoundFile<'_>,
) -> Done<M>
    requires size { length (M.meaning memory) ≡ sound.now.file.header.size }
    requires room { (sound.now.file.header.cards ≤ length tables.old.cards.now) × (sound.now.file.header.cards * sound.now.file.header.size ≤ length tables.old.cells.now) }
    ensures audited { record { verdict = result.verdict; left = tables_of (M.meaning result.memory) tables.new } ≡ records_audited sound.now.file.header sound.now.file.entries.now sound.now.file.steps.now (tables_of (M.meaning memory) tables.old) }
    ensures tables { SameTables tables.old tables.new }
{
    let file = sound.file;
    let order = file.header.memory_order();
    let Ok(mut draft) = Draft::open(memory, order, file.header.cards, tables.cards) else {
        unreachable!()
    };
    // Kept: `?` would lose the memory, which is handed back.
    if let Err(stop) = take_entries(&mut draft, tables.cards, tables.code, &file) {
        return Done {
            memory: draft.into_memory(),
            verdict: Err(FileFault::Entry(stop)),
        };
    }
    let Ok(run) = draft.start(tables.cells) else {
        unreachable!()
    };
    run_steps(run, tables, &file)
}
