// Why a call on a run is refused.
ghost use Rattle.std.specs.Prelude.{◌≡◌};
ghost use Rattle.run.specs.Faults.{life_fault_number, program_fault_number, step_fault_number};
ghost use Rattle.run.specs.declared.fault.ProgramFault.TheVariants as program;
ghost use Rattle.run.specs.declared.fault.StepFault.TheVariants as step;

use memory::fault::MemoryFault;
use orders::translation::TranslationFault;

// Opening a draft, or starting it.
#[derive(Clone, Copy, PartialEq, Eq, Debug)]
pub enum LifeFault {
    TooShort,
    OutOfBounds,
}

// Adding an entry or a raw instruction.
#[derive(Clone, Copy, PartialEq, Eq, Debug)]
pub enum ProgramFault {
    TooShort,
    NoSuchCard,
    NoSuchAddress,
    NotTaken,
    NoPlace,
}

// A step. A bound instruction's refusal names the lowest pending position that binds it.
#[derive(Clone, Copy, PartialEq, Eq, Debug)]
pub enum StepFault {
    TooShort,
    NoSuchCard,
    NoSuchAddress,
    NoSuchPosition,
    AlreadyPerformed,
    Bound(u32),
    CellUnfit,
    WordDiffers,
    StepsFull,
    Memory(MemoryFault),
}

impl LifeFault {
    // The refusal's number. Kept: a fault has a number, and audit adds a layer and a place; a `From` for `u32` would not say which.
    pub fn number(&self) -> u32
        ensures { result ≡ life_fault_number self.now }
    {
        match self {
            LifeFault::TooShort => 1,
            LifeFault::OutOfBounds => 12,
        }
    }
}

impl ProgramFault {
    // The refusal's number. Kept: a fault has a number, and audit adds a layer and a place; a `From` for `u32` would not say which.
    pub fn number(&self) -> u32
        ensures { result ≡ program_fault_number self.now }
    {
        match self {
            ProgramFault::TooShort => 1,
            ProgramFault::NoSuchCard => 2,
            ProgramFault::NoSuchAddress => 3,
            ProgramFault::NotTaken => 4,
            ProgramFault::NoPlace => 5,
        }
    }
}

impl StepFault {
    // The refusal's number. Kept: a fault has a number, and audit adds a layer and a place; a `From` for `u32` would not say which.
    pub fn number(&self) -> u32
        ensures { result ≡ step_fault_number self.now }
    {
        match self {
            StepFault::TooShort => 1,
            StepFault::NoSuchCard => 2,
            StepFault::NoSuchAddress => 3,
            StepFault::NoSuchPosition => 6,
            StepFault::AlreadyPerformed => 7,
            StepFault::Bound(_) => 8,
            StepFault::CellUnfit => 9,
            StepFault::WordDiffers => 10,
            StepFault::StepsFull => 11,
            StepFault::Memory(fault) => fault.number(),
        }
    }
}

impl From<TranslationFault> for ProgramFault {
    ghost from_gives = { λ _ r. r ≡ program.NotTaken };

    fn from(_fault: TranslationFault) -> ProgramFault {
        ProgramFault::NotTaken
    }
}

impl From<MemoryFault> for StepFault {
    ghost from_gives = { λ e r. r ≡ step.Memory e };

    fn from(fault: MemoryFault) -> StepFault {
        StepFault::Memory(fault)
    }
}
