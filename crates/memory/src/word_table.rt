// A memory over a lent table of words.
ghost use Rattle.std.specs.Prelude.{◌≡◌, [], ◌∷◌, length, slice_set};
ghost use Rattle.memory.specs.Meaning.{shown, read_of, write_of, rows_written};
ghost use Rattle.memory.specs.Shown.{shown_bounded};

use crate::fault::MemoryFault;
use crate::interface::{Memory, check_address, shown_size};
use crate::word::Word;

#[derive(Drop)]
pub struct WordTable<'a, W> {
    words: &'a mut [W],
}

impl<'a, W: Word> WordTable<'a, W> {
    pub fn over(words: &'a mut [W]) -> Self
        ensures words { result.words.now ≡ words.old }
        ensures lender { result.words.ghost_name ≡ words.entry.ghost_name }
    {
        WordTable { words }
    }
}

impl<'a, W: Word> Memory for WordTable<'a, W> {
    type Word = W;

    ghost meaning = { λ m. shown m.words.now };

    ghost bounded = { λ m. shown_bounded m.words.now };

    ghost fixed = { λ m. m.words.ghost_name ∷ [] };

    fn size(&self) -> u32
        ensures { result ≡ length (shown self.now.words.now) }
    {
        shown_size(self.words.len())
    }

    fn read(&self, address: u32) -> Result<W, MemoryFault>
        ensures { result ≡ read_of (shown self.now.words.now) address }
    {
        check_address(address, self.size())?;
        Ok(self.words[address as usize])
    }

    fn write(&mut self, address: u32, word: W) -> Result<(), MemoryFault>
        ensures answer { result ≡ write_of (shown self.old.words.now) address }
        ensures meaning { shown self.new.words.now ≡ slice_set (shown self.old.words.now) address word }
        ensures fixed { self.new.words.ghost_name ∷ [] ≡ self.old.words.ghost_name ∷ [] }
        ensures table { self.new.words.now ≡ rows_written self.old.words.now address word }
    {
        check_address(address, self.size())?;
        self.words[address as usize] = word;
        Ok(())
    }
}
