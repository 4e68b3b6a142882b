// A call that works any memory, and its use over each layer.
ghost use Rattle.std.specs.Prelude.{◌≡◌};
ghost use Rattle.layers.specs.Banks.{banks_of};
ghost use Rattle.layers.specs.Window.{window_of};
ghost use Rattle.layers.specs.Stacks.{swap_of, swapped};
ghost use Rattle.layers.specs.Words.{table_words, table_name, byte_words, byte_name};

use crate::banks::Banks;
use crate::window::Window;
use crate::write_buffer::WriteBuffer;
use memory::byte_table::ByteTable;
use memory::fault::MemoryFault;
use memory::interface::Memory;
use memory::word::Word;
use memory::word_table::WordTable;

// Exchanges the words at two addresses.
pub fn swap_words<M: Memory>(memory: &mut M, a: u32, b: u32) -> Result<(), MemoryFault>
    ensures answer { result ≡ swap_of (M.meaning memory.old) a b }
    ensures meaning { M.meaning memory.new ≡ swapped (M.meaning memory.old) a b }
    ensures fixed { M.fixed memory.new ≡ M.fixed memory.old }
{
    let at_a = memory.read(a)?;
    let at_b = memory.read(b)?;
    memory.write(a, at_b)?;
    memory.write(b, at_a)
}

// The memories that a call was handed, given back, and what the call answered.
#[derive(Drop)]
pub struct Returned<T> {
    pub memories: T,
    pub answer: Result<(), MemoryFault>,
}

// Kept: four calls in place of a generic one, which would take a closure that takes the layer apart, and speak of a layer in between.
// Exchanges two words of a table by a window.
pub fn swap_by_window<'a, W: Word>(
    table: WordTable<'a, W>,
    first: u32,
    count: u32,
    a: u32,
    b: u32,
) -> Returned<WordTable<'a, W>>
    ensures answer { result.answer ≡ swap_of (window_of first count (table_words table.entry)) a b }
    ensures meaning { window_of first count (table_words result.memories) ≡ swapped (window_of first count (table_words table.entry)) a b }
    ensures lender { table_name result.memories ≡ table_name table.entry }
{
    let mut window = Window::new(table, first, count);
    let answer = swap_words(&mut window, a, b);
    Returned {
        memories: window.into_below(),
        answer,
    }
}

// Exchanges two words of the banks of two tables.
pub fn swap_by_banks<'a, 'b, W: Word>(
    even: WordTable<'a, W>,
    odd: WordTable<'b, W>,
    a: u32,
    b: u32,
) -> Returned<(WordTable<'a, W>, WordTable<'b, W>)>
    ensures answer { result.answer ≡ swap_of (banks_of (table_words even.entry) (table_words odd.entry)) a b }
    ensures meaning { banks_of (table_words result.memories.0) (table_words result.memories.1) ≡ swapped (banks_of (table_words even.entry) (table_words odd.entry)) a b }
    ensures even { table_name result.memories.0 ≡ table_name even.entry }
    ensures odd { table_name result.memories.1 ≡ table_name odd.entry }
{
    let mut banks = Banks::new(even, odd);
    let answer = swap_words(&mut banks, a, b);
    Returned {
        memories: banks.into_both(),
        answer,
    }
}

// Exchanges two words of a table by a write buffer.
pub fn swap_by_buffer<'a, W: Word>(
    table: WordTable<'a, W>,
    a: u32,
    b: u32,
) -> Returned<WordTable<'a, W>>
    ensures answer { result.answer ≡ swap_of (table_words table.entry) a b }
    ensures meaning { table_words result.memories ≡ swapped (table_words table.entry) a b }
    ensures lender { table_name result.memories ≡ table_name table.entry }
{
    let mut buffer = WriteBuffer::new(table);
    let answer = swap_words(&mut buffer, a, b);
    Returned {
        memories: buffer.flush(),
        answer,
    }
}

// Exchanges two words by a write buffer over the banks of a window and a table of bytes.
pub fn swap_by_stack<'a, 'b>(
    table: WordTable<'a, u32>,
    first: u32,
    count: u32,
    bytes: ByteTable<'b>,
    a: u32,
    b: u32,
) -> Returned<(WordTable<'a, u32>, ByteTable<'b>)>
    ensures answer { result.answer ≡ swap_of (banks_of (window_of first count (table_words table.entry)) (byte_words bytes.entry)) a b }
    ensures meaning { banks_of (window_of first count (table_words result.memories.0)) (byte_words result.memories.1) ≡ swapped (banks_of (window_of first count (table_words table.entry)) (byte_words bytes.entry)) a b }
    ensures table { table_name result.memories.0 ≡ table_name table.entry }
    ensures bytes { byte_name result.memories.1 ≡ byte_name bytes.entry }
{
    let mut stack = WriteBuffer::new(Banks::new(Window::new(table, first, count), bytes));
    let answer = swap_words(&mut stack, a, b);
    let (window, bytes) = stack.flush().into_both();
    Returned {
        memories: (window.into_below(), bytes),
        answer,
    }
}

#[cfg(test)]
mod tests {
    use super::*;
    use memory::fault::*;
    use std::test::Fail;

    #[test]
    fn window_past_the_end(rt: HostRuntime) {
        let mut words = [1u32, 2, 3];
        let window = Window::new(WordTable::over(&mut words), 4, 2);
        assert_eq!(rt; window.size(), 0);
        assert!(rt; window.read(0).is_err());
    }

    #[test]
    fn refused_exchange(rt: HostRuntime) -> Result<(), Fail> {
        let mut words = [1u32, 2, 3, 4];
        let returned = swap_by_window(WordTable::over(&mut words), 1, 2, 0, 2);
        assert!(rt; returned.answer.is_err());
        assert_eq!(rt; returned.memories.read(1)?, 2);
        Ok(())
    }

    #[test]
    fn stack_read_back_and_flushed(rt: HostRuntime) -> Result<(), Fail> {
        let mut words = [1u32, 2, 3, 4];
        let mut bytes = [10u8, 0, 0, 0, 20, 0, 0, 0];
        let banks = Banks::new(
            Window::new(WordTable::over(&mut words), 1, 2),
            ByteTable::over(&mut bytes),
        );
        let mut stack = WriteBuffer::new(banks);
        assert_eq!(rt; stack.size(), 4);
        swap_words(&mut stack, 0, 3)?;
        assert_eq!(rt; stack.read(0)?, 20);
        assert_eq!(rt; stack.read(3)?, 2);
        let (window, table) = stack.flush().into_both();
        assert_eq!(rt; window.read(0)?, 20);
        assert_eq!(rt; table.read(1)?, 2);
        assert_eq!(rt; window.into_below().read(3)?, 4);
        Ok(())
    }
}
