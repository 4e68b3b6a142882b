// Why a memory refuses a call.
ghost use Rattle.std.specs.Prelude.{◌≡◌};
ghost use Rattle.memory.specs.Fault.{memory_fault_number};

#[derive(Clone, Copy, PartialEq, Eq, Debug)]
pub enum MemoryFault {
    NoSuchAddress,
}

impl MemoryFault {
    // The refusal's number. Kept: a fault has a number, a layer and a place, and a `From` for `u32` would not say which.
    pub fn number(&self) -> u32
        ensures { result ≡ memory_fault_number self.now }
    {
        match self {
            MemoryFault::NoSuchAddress => 17,
        }
    }
}
