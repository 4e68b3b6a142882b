// A word kind: plain values with a test of sameness.
ghost use Rattle.std.specs.Prelude.{◌≡◌, Bool, true, ◌==◌, nat_eq};
ghost use Rattle.std.proofs.Common.{rules};

pub trait Word: Copy {
    // the test of sameness; by the two laws it is true exactly when the two words are equal
    ghost alike: { Self → Self → Bool };

    // Kept: a test of its own and not `==`, which a kind of words may have for less than the whole word.
    fn same(&self, other: &Self) -> bool
        ensures { result ≡ alike self.now other.now };

    ghost alike_equal: { (x : Self) (y : Self) → alike x y ≡ true → x ≡ y };

    ghost equal_alike: { (x : Self) → alike x x ≡ true };
}

// Number words of 32 bits.
impl Word for u32 {
    ghost alike = { nat_eq };

    ghost alike_equal = { Prim.search rules };

    ghost equal_alike = { Prim.search rules };

    fn same(&self, other: &Self) -> bool
        ensures { result ≡ (self.now == other.now) }
    {
        *self == *other
    }
}
