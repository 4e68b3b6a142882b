// Words that say where they come from: the memory's initial words, or the store of a card's entry.
ghost use Rattle.std.specs.Prelude.{◌≡◌};
ghost use Rattle.memory.specs.Origins.{origin_alike};
ghost use Rattle.std.proofs.Common.{rules};

use crate::word::Word;

#[derive(Clone, Copy, PartialEq, Eq, Debug)]
pub enum Origin {
    Initial,
    Store { card: u32, entry: u32 },
}

impl Word for Origin {
    ghost alike = { origin_alike };

    ghost alike_equal = { Prim.search rules };

    ghost equal_alike = { Prim.search rules };

    fn same(&self, other: &Self) -> bool
        ensures { result ≡ origin_alike self.now other.now }
    {
        *self == *other
    }
}
