// Numbers of 32 bits in bytes: four bytes each, the lowest first.
ghost use Rattle.std.specs.Prelude.{◌≡◌, ◌+◌, ◌<◌, length, slice_index};
ghost use Rattle.memory.specs.Bytes.{four_bytes, number_at, word_put};

// The byte at place `k`, or 0 where there is none.
fn byte_at(bytes: &[u8], k: usize) -> u8
    ensures { result ≡ slice_index bytes.now k }
{
    bytes.get(k).copied().unwrap_or(0)
}

// The number in the first four bytes, of which some are not there.
#[cold]
fn cut_number(rest: &[u8]) -> u32
    ensures { result ≡ four_bytes (slice_index rest.now 0) (slice_index rest.now 1) (slice_index rest.now 2) (slice_index rest.now 3) }
{
    u32::from_le_bytes([
        byte_at(rest, 0),
        byte_at(rest, 1),
        byte_at(rest, 2),
        byte_at(rest, 3),
    ])
}

// The number in the four bytes from place `at` on; a byte that is not there is read as 0.
#[inline]
pub fn number_at(bytes: &[u8], at: usize) -> u32
    ensures { result ≡ number_at bytes.now at }
{
    let rest = &bytes[at.min(bytes.len())..];
    // All four at once where they are there, as in a file nearly always: bytes looked up one by one take several times as long.
    let [a, b, c, d, ..] = rest else {
        return cut_number(rest);
    };
    u32::from_le_bytes([*a, *b, *c, *d])
}

// Puts a number into the four bytes from place `at` on.
pub(crate) fn put_number(bytes: &mut [u8], at: usize, number: u32)
    requires { at + 3 < length bytes.old }
    ensures { bytes.new ≡ word_put bytes.old at number }
{
    bytes[at..at + 4].copy_from_slice(&number.to_le_bytes());
}
