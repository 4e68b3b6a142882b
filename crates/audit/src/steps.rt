// The steps of a run file, taken by a run one after the other.
ghost use Rattle.std.specs.Prelude.{◌≡◌};
ghost use Rattle.run.specs.Runs.{SameTables, world_of};
ghost use Rattle.audit.specs.Records.{stepped, step_one, step_from};
ghost use Rattle.audit.specs.Turns.{worked, stop_in};

use crate::fault::{RowFault, Stop};
use files::records::BadRecord;
use files::run_file::RunFile;
use files::step::Step;
use memory::interface::Memory;
use run::fault::StepFault;
use run::rows::Tables;
use run::states::Running;

// Calls what the step names. Kept: a `match`, since which step it is stands in the file, and each takes other numbers.
fn work_step<M: Memory<Word = u32>>(
    run: &mut Running<M>,
    tables: &mut Tables<'_, u32>,
    step: Step,
) -> Result<(), StepFault>
    ensures world { record { answer = step_from result; after = world_of M.meaning run.new tables.new } ≡ stepped (world_of M.meaning run.old tables.old) step }
    ensures tables { SameTables tables.old tables.new }
{
    match step {
        Step::Perform { card, position } => run
            .perform(tables, u32::from(card), position)
            .map(|_| ()),
        Step::PerformRecorded {
            card,
            position,
            word,
        } => run
            .perform_recorded(tables, u32::from(card), position, word)
            .map(|_| ()),
        Step::Cache { card, address } => run.cache(tables, u32::from(card), address),
        Step::WriteBack { card, address } => run.write_back(tables, u32::from(card), address),
        Step::Purge { card, address } => run.purge(tables, u32::from(card), address),
    }
}

// Takes the n-th step of the file.
fn take_step<M: Memory<Word = u32>>(
    run: &mut Running<M>,
    tables: &mut Tables<'_, u32>,
    file: &RunFile<'_>,
    n: u32,
) -> Result<(), RowFault>
    ensures taken { record { answer = result; after = world_of M.meaning run.new tables.new } ≡ step_one file.now.steps.now n (world_of M.meaning run.old tables.old) }
    ensures tables { SameTables tables.old tables.new }
{
    let step = file.step(n as usize)?;
    Ok(work_step(run, tables, step)?)
}

// Takes the steps in turn, up to the first that is refused.
pub(crate) fn take_steps<M: Memory<Word = u32>>(
    run: &mut Running<M>,
    tables: &mut Tables<'_, u32>,
    file: &RunFile<'_>,
) -> Result<(), Stop>
    ensures worked { record { after = world_of M.meaning run.new tables.new; stopped = stop_in result } ≡ worked (step_one file.now.steps.now) file.now.header.steps 0 (world_of M.meaning run.old tables.old) }
    ensures tables { SameTables tables.old tables.new }
{
    // Kept: a loop of one line, for the reason beside that of take_entries.
    for n in 0..file.header.steps {
        take_step(run, tables, file, n).map_err(|fault| BadRecord { place: n, fault })?;
    }
    Ok(())
}
