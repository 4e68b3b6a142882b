// Writing a run file.
ghost use Rattle.std.specs.Prelude.{◌≡◌, true, false, length, MatchResult};
ghost use Rattle.files.specs.Faults.{RefusedWith, header_fault_number, write_fault_number};
ghost use Rattle.files.specs.Writing.{fields_for, writable, file_bytes, writing, bytes_after, expected_number};

use crate::header::{Fields, HEADER_BYTES, HeaderFault, MAX_ENTRIES, MAX_SIZE};
use crate::put::put_all;
use crate::records::{CardEntry, RECORD_BYTES};
use crate::step::Step;
use crate::write_fault::WriteFault;
use orders::chosen::AnyOrder;

// The header of a file of so many words, entries and steps, if it is a legal one.
// The number of steps has 32 bits; their offset always has, since words and entries are few.
// Kept: a `Header` holds these five too, but its counts are the numbers of 32 bits that are tested here. So the offsets are
// added up here too: those of `Fields` go by its numbers.
fn header_for(
    order: Option<AnyOrder>,
    cards: u32,
    words: usize,
    entries: usize,
    steps: usize,
) -> Result<Fields, HeaderFault>
    ensures { MatchResult result (λ f. (writable (fields_for order cards words entries steps) ≡ true) × (f ≡ fields_for order cards words entries steps)) (λ e. (writable (fields_for order cards words entries steps) ≡ false) × (header_fault_number e ≡ 15)) }
{
    if words > MAX_SIZE as usize || entries > MAX_ENTRIES as usize || steps > u32::MAX as usize {
        return Err(HeaderFault::Broken);
    }
    let entries_at = HEADER_BYTES + 4 * words;
    let steps_at = entries_at + RECORD_BYTES * entries;
    let fields = Fields {
        cards,
        size: words as u32,
        code: order.map_or(0, u32::from),
        entries: entries as u32,
        entries_at: entries_at as u32,
        steps: steps as u32,
        steps_at: steps_at as u32,
        words_at: HEADER_BYTES as u32,
    };
    if !fields.in_bounds() {
        return Err(HeaderFault::Broken);
    }
    Ok(fields)
}

// Writes a run file into the first bytes of `out`, and answers its length; a refused call leaves `out` as it was.
pub fn write_run(
    order: Option<AnyOrder>,
    cards: u32,
    words: &[u32],
    entries: &[CardEntry],
    steps: &[Step],
    out: &mut [u8],
) -> Result<usize, WriteFault>
    ensures answer { result ≡ writing order cards words.now entries.now steps.now out.old }
    ensures out { out.new ≡ bytes_after (writing order cards words.now entries.now steps.now out.old) (file_bytes order cards words.now entries.now steps.now) out.old }
    ensures refusal { RefusedWith write_fault_number (expected_number (writable (fields_for order cards (length words.now) (length entries.now) (length steps.now)))) result }
{
    let fields = header_for(order, cards, words.len(), entries.len(), steps.len())?;
    if fields.file_end() > out.len() {
        return Err(WriteFault::TooShort);
    }
    let header = <[u32; 8]>::from(fields);
    let words_at = put_all(&header, out, 0);
    let entries_at = put_all(words, out, words_at);
    let steps_at = put_all(entries, out, entries_at);
    Ok(put_all(steps, out, steps_at))
}
