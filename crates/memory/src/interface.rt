// What a memory is: a list of words, read and written by address.
ghost use Rattle.std.specs.Prelude.{◌≡◌, ℕ, ◌<◌, ◌≤◌, OnOk, OnErr, min, List, length, slice_set};
ghost use Rattle.memory.specs.Meaning.{read_of, write_of};

use crate::fault::MemoryFault;
use crate::word::Word;

pub trait Memory {
    type Word: Word;

    // the words that it shows, by address
    ghost meaning: { Self → List Self.Word };

    ghost bounded: { (m : Self) → length (meaning m) ≤ 65536 };

    // what no call changes: the ghost names of the lent references that it stands on, and a layer's own numbers
    ghost fixed: { Self → List ℕ };

    fn size(&self) -> u32
        ensures { result ≡ length (meaning self.now) };

    fn read(&self, address: u32) -> Result<Self::Word, MemoryFault>
        ensures { result ≡ read_of (meaning self.now) address };

    fn write(&mut self, address: u32, word: Self::Word) -> Result<(), MemoryFault>
        ensures answer { result ≡ write_of (meaning self.old) address }
        ensures meaning { meaning self.new ≡ slice_set (meaning self.old) address word }
        ensures fixed { fixed self.new ≡ fixed self.old };
}

// How many of n words a memory shows.
pub fn shown_size(n: usize) -> u32
    ensures { result ≡ min n 65536 }
{
    n.min(65536) as u32
}

// Refuses an address that is not below the size.
pub fn check_address(address: u32, size: u32) -> Result<(), MemoryFault>
    ensures ok { OnOk result (address < size) }
    ensures err { OnErr result (size ≤ address) }
{
    if address < size {
        Ok(())
    } else {
        Err(MemoryFault::NoSuchAddress)
    }
}
