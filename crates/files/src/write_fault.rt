// Why a file is not written.
ghost use Rattle.files.specs.Faults.{write_fault_number};
ghost use Rattle.files.specs.declared.write_fault.WriteFault.TheVariants as of_write;
ghost use Rattle.std.specs.Prelude.{◌≡◌};

use crate::header::HeaderFault;

// There is no case for a record against the layout: each entry and each step that the types allow
// has a record, from which it is read back (`records_round_trip`).
#[derive(Clone, Copy, PartialEq, Eq, Debug)]
pub enum WriteFault {
    // What is handed makes no legal header.
    Header(HeaderFault),
    // The table has fewer bytes than the file.
    TooShort,
}

impl WriteFault {
    // The refusal's number. Kept: a fault has a number, a layer and a place, and a `From` for `u32` would not say which.
    pub fn number(&self) -> u32
        ensures { result ≡ write_fault_number self.now }
    {
        match self {
            WriteFault::Header(fault) => fault.number(),
            WriteFault::TooShort => 1,
        }
    }
}

impl From<HeaderFault> for WriteFault {
    ghost from_gives = { λ e r. r ≡ of_write.Header e };

    fn from(fault: HeaderFault) -> WriteFault {
        WriteFault::Header(fault)
    }
}
