// A memory's words copied into a table.
ghost use Rattle.std.specs.Prelude.{◌≡◌};
ghost use Rattle.memory.specs.Tables.{laid_over};

use crate::interface::Memory;
use crate::word::Word;

// Copies the words into the first rows, as many as there are rows and words.
pub fn copy_words<W: Word, M: Memory<Word = W>>(memory: &M, words: &mut [W])
    ensures { words.new ≡ laid_over (M.meaning memory.now) words.old }
{
    let count = (memory.size() as usize).min(words.len());
    // Kept: over `words.iter_mut().zip(0..size)` what the loop wrote is lost, so its proof doesn't close.
    for address in 0..count {
        if let Ok(word) = memory.read(address as u32) {
            words[address] = word;
        }
    }
}
