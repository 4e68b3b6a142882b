// Writing a day file.
ghost use Rattle.std.specs.Prelude.{◌≡◌, ◌+◌, ◌*◌, ◌≤◌, true, false, map, length, MatchResult};
ghost use Rattle.files.specs.DayWriting.{header_end, run_places, day_length, day_bytes, day_writable, writing_day};
ghost use Rattle.files.specs.Encoding.{number_bytes};
ghost use Rattle.files.specs.Faults.{RefusedWith, header_fault_number, write_fault_number};
ghost use Rattle.files.specs.Writing.{written_at, bytes_after, expected_number};
ghost use Rattle.std.specs.List.{flat_map};

use crate::day::{MAX_DAY_BYTES, MAX_RUNS};
use crate::header::HeaderFault;
use crate::put::put_all;
use crate::write_fault::WriteFault;

// How many bytes the day file of these runs has, if it is a legal one.
fn day_length(runs: &[&[u8]]) -> Result<usize, HeaderFault>
    ensures { MatchResult result (λ n. (day_writable (map (λ x. x.now) runs.now) ≡ true) × (n ≡ day_length (map (λ x. x.now) runs.now))) (λ e. (day_writable (map (λ x. x.now) runs.now) ≡ false) × (header_fault_number e ≡ 15)) }
{
    if runs.len() > MAX_RUNS {
        return Err(HeaderFault::Broken);
    }
    let mut end = 4 + 8 * runs.len();
    for run in runs {
        if run.len() > MAX_DAY_BYTES - end {
            return Err(HeaderFault::Broken);
        }
        end += run.len();
    }
    Ok(end)
}

// Puts the offset and the length of each run from byte `at` on, and answers where they end.
fn put_places(runs: &[&[u8]], out: &mut [u8], at: usize) -> usize
    requires { (day_length (map (λ x. x.now) runs.now) ≤ 65536) × (at + 8 * length runs.now ≤ length out.old) }
    ensures end { result ≡ at + 8 * length runs.now }
    ensures put { out.new ≡ written_at out.old at (flat_map number_bytes (run_places (header_end (map (λ x. x.now) runs.now)) (map (λ x. x.now) runs.now))) }
{
    let mut next = at;
    let mut start = 4 + 8 * runs.len();
    for run in runs {
        next = put_all(&[start as u32, run.len() as u32], out, next);
        start += run.len();
    }
    next
}

// Writes a day file of these run files into the first bytes of `out`, and answers its length; a refused call leaves `out` as it was.
pub fn write_day(runs: &[&[u8]], out: &mut [u8]) -> Result<usize, WriteFault>
    ensures answer { result ≡ writing_day (map (λ x. x.now) runs.now) (length out.old) }
    ensures out { out.new ≡ bytes_after (writing_day (map (λ x. x.now) runs.now) (length out.old)) (day_bytes (map (λ x. x.now) runs.now)) out.old }
    ensures refusal { RefusedWith write_fault_number (expected_number (day_writable (map (λ x. x.now) runs.now))) result }
{
    let end = day_length(runs)?;
    if end > out.len() {
        return Err(WriteFault::TooShort);
    }
    let places_at = put_all(&[runs.len() as u32], out, 0);
    let runs_at = put_places(runs, out, places_at);
    Ok(put_all(runs, out, runs_at))
}
