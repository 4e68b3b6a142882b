// A memory that shows some addresses of the memory below.
ghost use Rattle.std.specs.Prelude.{◌≡◌, length, slice_set};
ghost use Rattle.memory.specs.Meaning.{read_of, write_of};
ghost use Rattle.layers.specs.Window.{window_of, window_written, window_of_bounded};
ghost use Rattle.layers.specs.Words.{window_words, window_fixed};

use memory::fault::MemoryFault;
use memory::interface::{Memory, check_address};

// `count` addresses from address `first` on, as far as the memory below reaches.
#[derive(Drop)]
pub struct Window<M> {
    below: M,
    first: u32,
    count: u32,
}

impl<M: Memory> Window<M> {
    pub fn new(below: M, first: u32, count: u32) -> Self
        ensures meaning { window_words M.Memory.meaning result ≡ window_of first count (M.Memory.meaning below) }
        ensures below { result.below ≡ below }
        ensures first { result.first ≡ first }
        ensures count { result.count ≡ count }
    {
        Window {
            below,
            first,
            count,
        }
    }

    // Ends the window, and gives the memory below back.
    pub fn into_below(self) -> M
        ensures { result ≡ self.below }
    {
        let Window {
            below,
            first: _,
            count: _,
        } = self;
        below
    }
}

impl<M: Memory> Memory for Window<M> {
    type Word = M::Word;

    ghost meaning = { window_words M.Memory.meaning };

    ghost bounded = { λ m. window_of_bounded m.first m.count (M.Memory.meaning m.below) (M.Memory.bounded m.below) };

    ghost fixed = { window_fixed M.Memory.fixed };

    fn size(&self) -> u32
        ensures { result ≡ length (window_words M.Memory.meaning self.now) }
    {
        self.count.min(self.below.size().saturating_sub(self.first))
    }

    fn read(&self, address: u32) -> Result<M::Word, MemoryFault>
        ensures { result ≡ read_of (window_words M.Memory.meaning self.now) address }
    {
        check_address(address, self.size())?;
        self.below.read(self.first + address)
    }

    fn write(&mut self, address: u32, word: M::Word) -> Result<(), MemoryFault>
        ensures answer { result ≡ write_of (window_words M.Memory.meaning self.old) address }
        ensures meaning { window_words M.Memory.meaning self.new ≡ slice_set (window_words M.Memory.meaning self.old) address word }
        ensures fixed { window_fixed M.Memory.fixed self.new ≡ window_fixed M.Memory.fixed self.old }
        ensures below { M.Memory.meaning self.new.below ≡ window_written self.old.first self.old.count (M.Memory.meaning self.old.below) address word }
    {
        check_address(address, self.size())?;
        self.below.write(self.first + address, word)
    }
}
