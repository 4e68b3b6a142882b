// Entries of a program, and what a memory order sees of them.
ghost use Rattle.std.specs.Prelude.{◌≡◌};
ghost use Rattle.orders.specs.Tables.{plain};
ghost use Rattle.orders.specs.Marks.{mark_named, mark_code};

#[derive(Clone, Copy, PartialEq, Eq, Debug)]
pub enum Op {
    Load,
    Store,
}

// Only ia64 takes acquire and release accesses.
#[derive(Clone, Copy, PartialEq, Eq, Debug)]
pub enum Mark {
    Plain,
    Acquire,
    Release,
}

// A code that is no mark's.
#[derive(Clone, Copy, PartialEq, Eq, Debug)]
pub struct UnknownMark;

// The mark of a code in a file.
impl TryFrom<u8> for Mark {
    type Error = UnknownMark;

    ghost try_from_gives = { λ code r. r ≡ mark_named code };

    fn try_from(code: u8) -> Result<Mark, UnknownMark> {
        match code {
            0 => Ok(Mark::Plain),
            1 => Ok(Mark::Acquire),
            2 => Ok(Mark::Release),
            _ => Err(UnknownMark),
        }
    }
}

impl From<Mark> for u8 {
    ghost from_gives = { λ mark code. code ≡ mark_code mark };

    fn from(mark: Mark) -> u8 {
        match mark {
            Mark::Plain => 0,
            Mark::Acquire => 1,
            Mark::Release => 2,
        }
    }
}

// A load or a store, without its word.
#[derive(Clone, Copy)]
pub struct Access {
    pub op: Op,
    pub mark: Mark,
    pub address: u32,
}

impl Access {
    pub fn is_plain(&self) -> bool
        ensures { result ≡ plain self.now.mark }
    {
        self.mark == Mark::Plain
    }
}

// An entry as a memory order sees it: without its word.
#[derive(Clone, Copy)]
pub enum Shape {
    Access(Access),
    Barrier(u8),
}

#[derive(Clone, Copy)]
pub enum Entry<W> {
    Load { mark: Mark, address: u32 },
    Store { mark: Mark, address: u32, word: W },
    Barrier { mask: u8 },
}
