// Putting numbers and records into a table of bytes, one behind the other.
ghost use Rattle.std.specs.Prelude.{◌≡◌, ℕ, ◌+◌, ◌≤◌, List, length};
ghost use Rattle.files.specs.Encoding.{number_bytes};
ghost use Rattle.files.specs.Writing.{written_at};
ghost use Rattle.std.specs.List.{flat_map};

use crate::records::Record;

// Kept: with a struct of the table and the place, each function would promise besides that the table stays the one lent.

// Puts bytes from byte `at` on, and answers where they end.
pub(crate) fn put_bytes(bytes: &[u8], out: &mut [u8], at: usize) -> usize
    requires { at + length bytes.now ≤ length out.old }
    ensures end { result ≡ at + length bytes.now }
    ensures put { out.new ≡ written_at out.old at bytes.now }
{
    let end = at + bytes.len();
    out[at..end].copy_from_slice(bytes);
    end
}

// What has bytes of its own in a file.
pub(crate) trait Written: Copy {
    ghost encoded: { Self → List ℕ };

    // Puts them from byte `at` on, and answers where they end.
    fn put(self, out: &mut [u8], at: usize) -> usize
        requires { at + length (encoded self) ≤ length out.old }
        ensures end { result ≡ at + length (encoded self) }
        ensures put { out.new ≡ written_at out.old at (encoded self) };
}

impl Written for u32 {
    ghost encoded = { number_bytes };

    #[tactic(auto, unfolding(crate::specs::Encoding::number_bytes))]
    fn put(self, out: &mut [u8], at: usize) -> usize {
        put_bytes(&self.to_le_bytes(), out, at)
    }
}

impl<R: Record> Written for R {
    ghost encoded = { R.encoded };

    fn put(self, out: &mut [u8], at: usize) -> usize {
        put_bytes(&self.encode(), out, at)
    }
}

impl<'a> Written for &'a [u8] {
    ghost encoded = { λ bytes. bytes.now };

    fn put(self, out: &mut [u8], at: usize) -> usize {
        put_bytes(self, out, at)
    }
}

// Puts rows from byte `at` on, one behind the other, and answers where they end.
pub(crate) fn put_all<R: Written>(rows: &[R], out: &mut [u8], at: usize) -> usize
    requires { at + length (flat_map R.encoded rows.now) ≤ length out.old }
    ensures end { result ≡ at + length (flat_map R.encoded rows.now) }
    ensures put { out.new ≡ written_at out.old at (flat_map R.encoded rows.now) }
{
    let mut next = at;
    for row in rows {
        next = row.put(out, next);
    }
    next
}
