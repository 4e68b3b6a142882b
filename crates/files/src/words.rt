// The initial words of a run.
ghost use Rattle.memory.specs.Bytes.{words_of};
ghost use Rattle.memory.specs.Tables.{laid_over};
ghost use Rattle.std.specs.Prelude.{◌≡◌};

// Puts the numbers of the section into the first rows, as many as both have room for.
pub fn words_into(section: &[u8], words: &mut [u32])
    ensures { words.new ≡ laid_over (words_of section.now) words.old }
{
    let mut rest = section;
    for word in words.iter_mut() {
        let [a, b, c, d, behind @ ..] = rest else {
            break;
        };
        *word = u32::from_le_bytes([*a, *b, *c, *d]);
        rest = behind;
    }
}
