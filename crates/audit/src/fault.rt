// Why a run file is not ok: a refusal of a layer below, with its layer and place.
ghost use Rattle.std.specs.Prelude.{◌≡◌};
ghost use Rattle.audit.specs.Faults.{row_fault_number, file_fault_number, file_fault_layer, file_fault_place};
ghost use Rattle.audit.specs.declared.fault.RowFault.TheVariants as row;

use files::header::HeaderFault;
use files::records::{BadRecord, RecordFault};
use run::fault::{ProgramFault, StepFault};

// A record of a file is against the layout, or its entry or step is refused.
#[derive(Clone, Copy, PartialEq, Eq, Debug)]
pub enum RowFault {
    Record(RecordFault),
    Program(ProgramFault),
    Step(StepFault),
}

// The first record that is refused, with its place among the entries or among the steps.
pub type Stop = BadRecord<RowFault>;

#[derive(Clone, Copy, PartialEq, Eq, Debug)]
pub enum FileFault {
    Header(HeaderFault),
    Entry(Stop),
    Step(Stop),
}

// These are written out: the `From` that thiserror derives has no clause, and the audit's clauses name the fault.
impl From<RecordFault> for RowFault {
    ghost from_gives = { λ e r. r ≡ row.Record e };

    fn from(fault: RecordFault) -> RowFault {
        RowFault::Record(fault)
    }
}

impl From<ProgramFault> for RowFault {
    ghost from_gives = { λ e r. r ≡ row.Program e };

    fn from(fault: ProgramFault) -> RowFault {
        RowFault::Program(fault)
    }
}

impl From<StepFault> for RowFault {
    ghost from_gives = { λ e r. r ≡ row.Step e };

    fn from(fault: StepFault) -> RowFault {
        RowFault::Step(fault)
    }
}

impl RowFault {
    // The refusal's number. Kept: a fault has a number, a layer and a place, and a `From` for `u32` would not say which.
    pub fn number(&self) -> u32
        ensures { result ≡ row_fault_number self.now }
    {
        match self {
            RowFault::Record(fault) => fault.number(),
            RowFault::Program(fault) => fault.number(),
            RowFault::Step(fault) => fault.number(),
        }
    }
}

impl FileFault {
    // The refusal's number. Kept: a fault has a number, a layer and a place, and a `From` for `u32` would not say which.
    pub fn number(&self) -> u32
        ensures { result ≡ file_fault_number self.now }
    {
        match self {
            FileFault::Header(fault) => fault.number(),
            FileFault::Entry(stop) | FileFault::Step(stop) => stop.fault.number(),
        }
    }

    // Where it arose: 2 the header, 3 an entry, 4 a step. Kept: a number, as a report's line tells it; by name the variants say it.
    pub fn layer(&self) -> u32
        ensures { result ≡ file_fault_layer self.now }
    {
        match self {
            FileFault::Header(_) => 2,
            FileFault::Entry(_) => 3,
            FileFault::Step(_) => 4,
        }
    }

    // Which entry or step; 0 for the header. Kept: a number, as a report's line tells it, and 0 is what it tells of a header.
    pub fn place(&self) -> u32
        ensures { result ≡ file_fault_place self.now }
    {
        match self {
            FileFault::Header(_) => 0,
            FileFault::Entry(stop) | FileFault::Step(stop) => stop.place,
        }
    }
}
