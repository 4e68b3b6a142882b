// The records of a section, entries or steps.
ghost use Rattle.std.specs.Prelude.{◌≡◌, ◌*◌, ◌≤◌, List, length, Some, None, Ok, MatchResult};
ghost use Rattle.files.specs.Bytes.{part};
ghost use Rattle.files.specs.Faults.{RefusedWith, record_fault_number};
ghost use Rattle.files.specs.Sections.{records_of, fault_in};
ghost use Rattle.memory.specs.Tables.{laid_over};

use crate::records::{BadRecord, RECORD_BYTES, Record, RecordFault};

// The n-th record of a section; where it has not 12 bytes there, it is refused.
pub(crate) fn record_at<R: Record>(section: &[u8], n: usize) -> Result<R, RecordFault>
    ensures decoded { result ≡ R.decoded (part section.now (12 * n) 12) }
    ensures number { RefusedWith record_fault_number 16 result }
{
    if n >= section.len() / RECORD_BYTES {
        return Err(RecordFault::Field);
    }
    let at = RECORD_BYTES * n;
    R::decode(&section[at..at + RECORD_BYTES])
}

// Refuses the first of `count` records that is against the layout.
pub(crate) fn check_records<R: Record>(
    section: &[u8],
    count: u32,
) -> Result<(), BadRecord<RecordFault>>
    ensures { MatchResult result (λ _. fault_in (records_of R.decoded section.now count) ≡ None) (λ b. fault_in (records_of R.decoded section.now count) ≡ Some b) }
{
    for place in 0..count {
        record_at::<R>(section, place as usize).map_err(|fault| BadRecord { place, fault })?;
    }
    Ok(())
}

// Puts `count` records, none of which is refused, into the first rows.
pub(crate) fn records_into<R: Record>(section: &[u8], count: u32, rows: &mut [R])
    requires { count ≤ length rows.old }
    ensures { (xs : List R) → records_of R.decoded section.now count ≡ Ok xs → rows.new ≡ laid_over xs rows.old }
{
    // Kept: a `for` over a `zip` or an `enumerate` of `rows.iter_mut()` loses what it wrote.
    for n in 0..count as usize {
        if let Ok(record) = record_at(section, n) {
            rows[n] = record;
        }
    }
}
