// A memory that keeps the latest write back until a write to another address comes.
ghost use Rattle.std.specs.Prelude.{◌≡◌, None, length, slice_set};
ghost use Rattle.memory.specs.Meaning.{read_of, write_of};
ghost use Rattle.layers.specs.Buffer.{held_at, sent_down, below_written, held_written, with_held_bounded};
ghost use Rattle.layers.specs.Words.{buffer_words};

use crate::held::HeldWord;
use memory::fault::MemoryFault;
use memory::interface::{Memory, check_address};
use memory::word::Word;

#[derive(Drop)]
pub struct WriteBuffer<M: Memory> {
    below: M,
    held: Option<HeldWord<M::Word>>,
}

impl<M: Memory> WriteBuffer<M> {
    pub fn new(below: M) -> Self
        ensures meaning { buffer_words M.Memory.meaning result ≡ M.Memory.meaning below }
        ensures below { result.below ≡ below }
        ensures held { result.held ≡ None }
    {
        WriteBuffer { below, held: None }
    }

    // Ends the buffer: writes the held word below, and gives the memory below back.
    pub fn flush(self) -> M
        ensures meaning { M.Memory.meaning result ≡ buffer_words M.Memory.meaning self }
        ensures fixed { M.Memory.fixed result ≡ M.Memory.fixed self.below }
    {
        let WriteBuffer { mut below, held } = self;
        if let Some(HeldWord { address, word }) = held {
            let _ = below.write(address, word);
        }
        below
    }
}

// The word that is held for an address, if any.
fn held_at<W: Word>(held: Option<HeldWord<W>>, address: u32) -> Option<W>
    ensures { result ≡ held_at held address }
{
    match held {
        Some(held) if held.address == address => Some(held.word),
        _ => None,
    }
}

// Writes a held word below, unless it is held for the address that is written now.
fn send_down<M: Memory>(below: &mut M, held: Option<HeldWord<M::Word>>, address: u32)
    ensures meaning { M.meaning below.new ≡ sent_down held (M.meaning below.old) address }
    ensures fixed { M.fixed below.new ≡ M.fixed below.old }
{
    if let Some(HeldWord { address: at, word }) = held {
        if at != address {
            let _ = below.write(at, word);
        }
    }
}

impl<M: Memory> Memory for WriteBuffer<M> {
    type Word = M::Word;

    ghost meaning = { buffer_words M.Memory.meaning };

    ghost bounded = { λ m. with_held_bounded m.held (M.Memory.meaning m.below) (M.Memory.bounded m.below) };

    ghost fixed = { λ m. M.Memory.fixed m.below };

    fn size(&self) -> u32
        ensures { result ≡ length (buffer_words M.Memory.meaning self.now) }
    {
        self.below.size()
    }

    fn read(&self, address: u32) -> Result<M::Word, MemoryFault>
        ensures { result ≡ read_of (buffer_words M.Memory.meaning self.now) address }
    {
        check_address(address, self.size())?;
        match held_at(self.held, address) {
            Some(word) => Ok(word),
            None => self.below.read(address),
        }
    }

    fn write(&mut self, address: u32, word: M::Word) -> Result<(), MemoryFault>
        ensures answer { result ≡ write_of (buffer_words M.Memory.meaning self.old) address }
        ensures meaning { buffer_words M.Memory.meaning self.new ≡ slice_set (buffer_words M.Memory.meaning self.old) address word }
        ensures fixed { M.Memory.fixed self.new.below ≡ M.Memory.fixed self.old.below }
        ensures below { M.Memory.meaning self.new.below ≡ below_written self.old.held (M.Memory.meaning self.old.below) address }
        ensures held { self.new.held ≡ held_written self.old.held (M.Memory.meaning self.old.below) address word }
    {
        check_address(address, self.size())?;
        send_down(&mut self.below, self.held, address);
        self.held = Some(HeldWord { address, word });
        Ok(())
    }
}
