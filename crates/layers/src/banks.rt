// Two memories joined: even addresses in the first, odd ones in the second.
ghost use Rattle.std.specs.Prelude.{◌≡◌, length, slice_set};
ghost use Rattle.memory.specs.Meaning.{read_of, write_of};
ghost use Rattle.layers.specs.Banks.{banks_of, bank_written, banks_of_bounded};
ghost use Rattle.layers.specs.Words.{banks_words, banks_fixed};

use memory::fault::MemoryFault;
use memory::interface::{Memory, check_address};

#[derive(Drop)]
pub struct Banks<E, O> {
    even: E,
    odd: O,
}

impl<E: Memory, O: Memory<Word = E::Word>> Banks<E, O> {
    pub fn new(even: E, odd: O) -> Self
        ensures meaning { banks_words E.Memory.meaning O.Memory.meaning result ≡ banks_of (E.Memory.meaning even) (O.Memory.meaning odd) }
        ensures even { result.even ≡ even }
        ensures odd { result.odd ≡ odd }
    {
        Banks { even, odd }
    }

    // Parts the banks, and gives both memories back.
    pub fn into_both(self) -> (E, O)
        ensures even { result.0 ≡ self.even }
        ensures odd { result.1 ≡ self.odd }
    {
        let Banks { even, odd } = self;
        (even, odd)
    }
}

impl<E: Memory, O: Memory<Word = E::Word>> Memory for Banks<E, O> {
    type Word = E::Word;

    ghost meaning = { banks_words E.Memory.meaning O.Memory.meaning };

    ghost bounded = { λ m. banks_of_bounded (E.Memory.meaning m.even) (O.Memory.meaning m.odd) };

    ghost fixed = { banks_fixed E.Memory.fixed O.Memory.fixed };

    fn size(&self) -> u32
        ensures { result ≡ length (banks_words E.Memory.meaning O.Memory.meaning self.now) }
    {
        2 * self.even.size().min(self.odd.size()).min(32768)
    }

    fn read(&self, address: u32) -> Result<E::Word, MemoryFault>
        ensures { result ≡ read_of (banks_words E.Memory.meaning O.Memory.meaning self.now) address }
    {
        check_address(address, self.size())?;
        if address % 2 == 0 {
            self.even.read(address / 2)
        } else {
            self.odd.read(address / 2)
        }
    }

    fn write(&mut self, address: u32, word: E::Word) -> Result<(), MemoryFault>
        ensures answer { result ≡ write_of (banks_words E.Memory.meaning O.Memory.meaning self.old) address }
        ensures meaning { banks_words E.Memory.meaning O.Memory.meaning self.new ≡ slice_set (banks_words E.Memory.meaning O.Memory.meaning self.old) address word }
        ensures fixed { banks_fixed E.Memory.fixed O.Memory.fixed self.new ≡ banks_fixed E.Memory.fixed O.Memory.fixed self.old }
        ensures even { E.Memory.meaning self.new.even ≡ bank_written 0 (banks_words E.Memory.meaning O.Memory.meaning self.old) (E.Memory.meaning self.old.even) address word }
        ensures odd { O.Memory.meaning self.new.odd ≡ bank_written 1 (banks_words E.Memory.meaning O.Memory.meaning self.old) (O.Memory.meaning self.old.odd) address word }
    {
        check_address(address, self.size())?;
        if address % 2 == 0 {
            self.even.write(address / 2, word)
        } else {
            self.odd.write(address / 2, word)
        }
    }
}
