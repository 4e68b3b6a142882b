// A day file: up to 32 run files behind one header.
ghost use Rattle.std.specs.Prelude.{◌≡◌, ◌+◌, ◌*◌, ◌<◌, ◌≤◌, true, false, length, Some, None, MatchOption, MatchResult};
ghost use Rattle.files.specs.Day.{run_count, offset_of, length_of, gapless, sound_day, run_part_of, RunOf};
ghost use Rattle.files.specs.Faults.{header_fault_number};
ghost use Rattle.memory.specs.Bytes.{number_at};

use crate::header::HeaderFault;
use memory::numbers::number_at;
use std::ops::Range;

pub(crate) const MAX_DAY_BYTES: usize = 65536;

pub(crate) const MAX_RUNS: usize = 32;

// The bytes of one run file, with its place in the day.
#[derive(Clone, Copy)]
pub struct RunBytes<'a> {
    pub bytes: &'a [u8],
    pub place: usize,
}

// A day file whose runs are shown as parts of it.
#[derive(Clone, Copy)]
pub struct DayFile<'a> {
    bytes: &'a [u8],
    ghost sound: { sound_day bytes.now ≡ true },
}

// How many runs the header announces; a file with no room for the count has none.
fn run_count(bytes: &[u8]) -> usize
    ensures counted { result ≡ run_count bytes.now }
    ensures small { result < 4294967296 }
{
    if bytes.len() < 4 {
        0
    } else {
        number_at(bytes, 0) as usize
    }
}

// The number in the four bytes from place `at` on, all of which are there.
// Kept: beside `number_at`, which looks whether they are there. A day's header is tested once, and read twice for each run.
#[tactic(auto, unfolding(memory::specs::Bytes::number_at))]
fn whole_number_at(bytes: &[u8], at: usize) -> u32
    requires { at + 4 ≤ length bytes.now }
    ensures { result ≡ number_at bytes.now at }
{
    u32::from_le_bytes([bytes[at], bytes[at + 1], bytes[at + 2], bytes[at + 3]])
}

// Where run n starts and ends, as the header says.
fn range_at(bytes: &[u8], n: usize) -> Range<usize>
    requires { 12 + 8 * n ≤ length bytes.now }
    ensures start { result.start ≡ offset_of bytes.now n }
    ensures end { result.end ≡ offset_of bytes.now n + length_of bytes.now n }
{
    let start = whole_number_at(bytes, 4 + 8 * n) as usize;
    start..start + whole_number_at(bytes, 8 + 8 * n) as usize
}

// Whether the runs lie without a gap from the header's end to the file's.
#[tactic(auto, using(crate::proofs::Gapless::gapless_next, crate::proofs::Gapless::gapless_stop, crate::proofs::Gapless::gapless_end))]
fn is_gapless(bytes: &[u8], count: usize) -> bool
    requires { (4 + 8 * count ≤ length bytes.now) × (count ≤ 32) }
    ensures { result ≡ gapless bytes.now count 0 (4 + 8 * count) }
{
    let mut next = 4 + 8 * count;
    // Kept: runs by number, as `DayFile::run` finds them; over the header's rows of eight bytes both would need their own reading.
    for n in 0..count {
        let run = range_at(bytes, n);
        if run.start != next {
            return false;
        }
        next = run.end;
    }
    next == bytes.len()
}

fn is_sound(bytes: &[u8]) -> bool
    ensures { result ≡ sound_day bytes.now }
{
    let count = run_count(bytes);
    bytes.len() <= MAX_DAY_BYTES
        && count <= MAX_RUNS
        && 4 + 8 * count <= bytes.len()
        && is_gapless(bytes, count)
}

impl<'a> DayFile<'a> {
    pub fn open(bytes: &'a [u8]) -> Result<DayFile<'a>, HeaderFault>
        ensures { MatchResult result (λ d. (sound_day bytes.now ≡ true) × (d.bytes.now ≡ bytes.now)) (λ e. (sound_day bytes.now ≡ false) × (header_fault_number e ≡ 15)) }
    {
        if !is_sound(bytes) {
            return Err(HeaderFault::Broken);
        }
        Ok(DayFile { bytes })
    }

    // How many runs the day has.
    pub fn count(&self) -> usize
        ensures { result ≡ run_count self.now.bytes.now }
    {
        run_count(self.bytes)
    }

    // The n-th run, as a part of the day file.
    #[tactic(auto, using(crate::proofs::Gapless::run_inside, crate::proofs::Gapless::sound))]
    pub fn run(&self, n: usize) -> Option<RunBytes<'a>>
        ensures found { MatchOption result (run_part_of self.now.bytes.now n ≡ None) (λ b. (run_part_of self.now.bytes.now n ≡ Some b.bytes.now) × (b.place ≡ n)) }
        ensures sound { MatchOption result (run_count self.now.bytes.now ≤ n) (λ b. RunOf self.now.bytes.now n b.bytes.now b.place) }
    {
        if n >= self.count() {
            return None;
        }
        let bytes = self.bytes;
        let Range { start, end } = range_at(bytes, n);
        Some(RunBytes {
            bytes: &bytes[start..end],
            place: n,
        })
    }
}
