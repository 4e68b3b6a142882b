// What a memory order is.
ghost use Rattle.std.specs.Prelude.{◌≡◌, Bool, List};
ghost use Rattle.crf.specs.Fences.{Row};
ghost use Rattle.orders.specs.Fences.{rows};
ghost use Rattle.orders.specs.Order.{Few, Fenced};
ghost use Rattle.orders.specs.declared.entries.Access.{Access};
ghost use Rattle.orders.specs.declared.entries.Shape.{Shape};

use crate::entries::Shape;
use crate::fences::Fences;

// Kept: six impls of one shape. Five have one `after` and take the same accesses, but a provided body has to be proved for each impl: `behind` may be any list there, and `Fences::none()` has no rows.
pub trait MemoryOrder: Copy {
    // the entries that it takes
    ghost taken: { Self → Shape → Bool };

    // the fences that stand before an entry, and after it
    ghost ahead: { Self → Shape → List Row };

    ghost behind: { Self → Shape → List Row };

    // the pairs of accesses of one program that it keeps, by the entries between them
    ghost keeps: { Self → Access → List Shape → Access → Type 0 };

    fn takes(&self, shape: Shape) -> bool
        ensures { result ≡ taken self.now shape };

    fn before(&self, shape: Shape) -> Fences
        ensures { rows result ≡ ahead self.now shape };

    fn after(&self, shape: Shape) -> Fences
        ensures { rows result ≡ behind self.now shape };

    // between each pair that it keeps stands a fitting fence
    ghost fenced: { (o : Self) → Fenced (taken o) (ahead o) (behind o) (keeps o) };

    // an access has at most two fences, a barrier four
    ghost few: { (o : Self) → Few (ahead o) (behind o) };
}
