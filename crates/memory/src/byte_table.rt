// A memory of number words over a lent table of bytes: four bytes a word, the lowest first.
ghost use Rattle.std.specs.Prelude.{◌≡◌, [], ◌∷◌, length, slice_set};
ghost use Rattle.memory.specs.Meaning.{shown, read_of, write_of};
ghost use Rattle.memory.specs.Bytes.{words_of, bytes_written};
ghost use Rattle.memory.specs.Shown.{shown_bounded};

use crate::fault::MemoryFault;
use crate::interface::{Memory, check_address, shown_size};
use crate::numbers::{number_at, put_number};

#[derive(Drop)]
pub struct ByteTable<'a> {
    bytes: &'a mut [u8],
}

impl<'a> ByteTable<'a> {
    pub fn over(bytes: &'a mut [u8]) -> Self
        ensures bytes { result.bytes.now ≡ bytes.old }
        ensures lender { result.bytes.ghost_name ≡ bytes.entry.ghost_name }
    {
        ByteTable { bytes }
    }
}

impl<'a> Memory for ByteTable<'a> {
    type Word = u32;

    ghost meaning = { λ m. shown (words_of m.bytes.now) };

    ghost bounded = { λ m. shown_bounded (words_of m.bytes.now) };

    ghost fixed = { λ m. m.bytes.ghost_name ∷ [] };

    fn size(&self) -> u32
        ensures { result ≡ length (shown (words_of self.now.bytes.now)) }
    {
        shown_size(self.bytes.len() / 4)
    }

    fn read(&self, address: u32) -> Result<u32, MemoryFault>
        ensures { result ≡ read_of (shown (words_of self.now.bytes.now)) address }
    {
        check_address(address, self.size())?;
        Ok(number_at(self.bytes, 4 * address as usize))
    }

    fn write(&mut self, address: u32, word: u32) -> Result<(), MemoryFault>
        ensures answer { result ≡ write_of (shown (words_of self.old.bytes.now)) address }
        ensures meaning { shown (words_of self.new.bytes.now) ≡ slice_set (shown (words_of self.old.bytes.now)) address word }
        ensures fixed { self.new.bytes.ghost_name ∷ [] ≡ self.old.bytes.ghost_name ∷ [] }
        ensures table { self.new.bytes.now ≡ bytes_written self.old.bytes.now address word }
    {
        check_address(address, self.size())?;
        put_number(self.bytes, 4 * address as usize, word);
        Ok(())
    }
}
