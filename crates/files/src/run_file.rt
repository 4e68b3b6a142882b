// A run file: a header, initial words, entries and steps.
ghost use Rattle.std.specs.Prelude.{◌≡◌, ◌*◌, ◌≤◌, true, false, length, IfOk, MatchResult};
ghost use Rattle.files.specs.Faults.{RefusedWith, header_fault_number, record_fault_number};
ghost use Rattle.files.specs.Header.{fields_of, header_of};
ghost use Rattle.files.specs.Records.{entry_at, step_at};
ghost use Rattle.files.specs.Run.{sound_run, words_section, entries_section, steps_section};

use crate::header::{Fields, HEADER_BYTES, Header, HeaderFault};
use crate::records::{CardEntry, RecordFault};
use crate::sections::record_at;
use crate::step::Step;

// The header, and the three sections behind it as parts of the file.
#[derive(Clone, Copy)]
pub struct RunFile<'a> {
    pub header: Header,
    pub words: &'a [u8],
    pub entries: &'a [u8],
    pub steps: &'a [u8],
}

fn sound_fields(bytes: &[u8]) -> Result<Fields, HeaderFault>
    ensures { MatchResult result (λ f. (sound_run bytes.now ≡ true) × (f ≡ fields_of bytes.now)) (λ e. (sound_run bytes.now ≡ false) × (header_fault_number e ≡ 15)) }
{
    if bytes.len() < HEADER_BYTES {
        return Err(HeaderFault::Broken);
    }
    let fields = Fields::read(bytes);
    if !fields.in_bounds() || !fields.laid_out(bytes.len()) {
        return Err(HeaderFault::Broken);
    }
    Ok(fields)
}

impl<'a> RunFile<'a> {
    #[tactic(auto, using(crate::proofs::Laying::opened))]
    pub fn open(bytes: &'a [u8]) -> Result<RunFile<'a>, HeaderFault>
        ensures sound { MatchResult result (λ _. sound_run bytes.now ≡ true) (λ e. (sound_run bytes.now ≡ false) × (header_fault_number e ≡ 15)) }
        ensures header { IfOk result (λ f. f.header ≡ header_of bytes.now) }
        ensures words { IfOk result (λ f. f.words.now ≡ words_section bytes.now) }
        ensures entries { IfOk result (λ f. f.entries.now ≡ entries_section bytes.now) }
        ensures steps { IfOk result (λ f. f.steps.now ≡ steps_section bytes.now) }
        ensures lengths { IfOk result (λ f. (length f.words.now ≡ 4 * f.header.size) × (length f.entries.now ≡ 12 * f.header.entries) × (length f.steps.now ≡ 12 * f.header.steps)) }
    {
        let fields = sound_fields(bytes)?;
        let entries_at = fields.entries_at as usize;
        let steps_at = fields.steps_at as usize;
        Ok(RunFile {
            header: fields.header(),
            words: &bytes[HEADER_BYTES..entries_at],
            entries: &bytes[entries_at..steps_at],
            steps: &bytes[steps_at..bytes.len()],
        })
    }

    // The n-th entry; past the last it is refused.
    pub fn entry(&self, n: usize) -> Result<CardEntry, RecordFault>
        ensures decoded { result ≡ entry_at self.now.entries.now n }
        ensures number { RefusedWith record_fault_number 16 result }
    {
        record_at(self.entries, n)
    }

    // The n-th step; past the last it is refused.
    pub fn step(&self, n: usize) -> Result<Step, RecordFault>
        ensures decoded { result ≡ step_at self.now.steps.now n }
        ensures number { RefusedWith record_fault_number 16 result }
    {
        record_at(self.steps, n)
    }
}
