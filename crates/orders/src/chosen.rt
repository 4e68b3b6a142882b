// Any of the six memory orders, chosen as the program runs.
ghost use Rattle.std.specs.Prelude.{◌≡◌};
ghost use Rattle.orders.specs.Fences.{rows};
ghost use Rattle.orders.specs.Chosen.{any_takes, any_before, any_after, AnyKeeps, order_named, code_of};
ghost use Rattle.orders.specs.Laws.{any_fenced};
ghost use Rattle.std.proofs.Common.{rules};

use crate::entries::Shape;
use crate::fences::Fences;
use crate::ia64::Ia64;
use crate::ibm370::Ibm370;
use crate::order::MemoryOrder;
use crate::pso::Pso;
use crate::rmo::Rmo;
use crate::sc::Sc;
use crate::tso::Tso;

#[derive(Clone, Copy, PartialEq, Eq, Debug)]
pub enum AnyOrder {
    Sc,
    Tso,
    Pso,
    Rmo,
    Ibm370,
    Ia64,
}

// A code that names no memory order.
#[derive(Clone, Copy, PartialEq, Eq, Debug)]
pub struct UnknownCode;

// The order that a file's code names.
impl TryFrom<u32> for AnyOrder {
    type Error = UnknownCode;

    ghost try_from_gives = { λ code r. r ≡ order_named code };

    fn try_from(code: u32) -> Result<AnyOrder, UnknownCode> {
        match code {
            1 => Ok(AnyOrder::Sc),
            2 => Ok(AnyOrder::Tso),
            3 => Ok(AnyOrder::Pso),
            4 => Ok(AnyOrder::Rmo),
            5 => Ok(AnyOrder::Ibm370),
            6 => Ok(AnyOrder::Ia64),
            _ => Err(UnknownCode),
        }
    }
}

impl From<AnyOrder> for u32 {
    ghost from_gives = { λ order code. code ≡ code_of order };

    fn from(order: AnyOrder) -> u32 {
        match order {
            AnyOrder::Sc => 1,
            AnyOrder::Tso => 2,
            AnyOrder::Pso => 3,
            AnyOrder::Rmo => 4,
            AnyOrder::Ibm370 => 5,
            AnyOrder::Ia64 => 6,
        }
    }
}

// What the order chosen answers.
macro_rules! chosen {
    ($order:expr, $ask:ident, $shape:expr) => {
        match $order {
            AnyOrder::Sc => Sc.$ask($shape),
            AnyOrder::Tso => Tso.$ask($shape),
            AnyOrder::Pso => Pso.$ask($shape),
            AnyOrder::Rmo => Rmo.$ask($shape),
            AnyOrder::Ibm370 => Ibm370.$ask($shape),
            AnyOrder::Ia64 => Ia64.$ask($shape),
        }
    };
}

impl MemoryOrder for AnyOrder {
    ghost taken = { any_takes };

    ghost ahead = { any_before };

    ghost behind = { any_after };

    ghost keeps = { AnyKeeps };

    ghost fenced = { any_fenced };

    ghost few = { Prim.search rules };

    fn takes(&self, shape: Shape) -> bool
        ensures { result ≡ any_takes self.now shape }
    {
        chosen!(self, takes, shape)
    }

    fn before(&self, shape: Shape) -> Fences
        ensures { rows result ≡ any_before self.now shape }
    {
        chosen!(self, before, shape)
    }

    fn after(&self, shape: Shape) -> Fences
        ensures { rows result ≡ any_after self.now shape }
    {
        chosen!(self, after, shape)
    }
}
