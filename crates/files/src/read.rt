// Reading a whole run file into tables.
ghost use Rattle.files.specs.Faults.{RefusedWith, read_refusal};
ghost use Rattle.files.specs.Reading.{has_room, file_read, reading, expected_refusal, header_read, words_after, entries_after, steps_after};
ghost use Rattle.files.specs.Records.{decode_entry, decode_step};
ghost use Rattle.files.specs.Sections.{records_of, fault_in};
ghost use Rattle.files.specs.declared.read.ReadFault.TheVariants as of_read;
ghost use Rattle.std.specs.Prelude.{◌≡◌, None, Err, MatchResult, OnOk};

use crate::header::{Header, HeaderFault};
use crate::records::{BadRecord, CardEntry, RecordFault};
use crate::run_file::RunFile;
use crate::sections::{check_records, records_into};
use crate::step::Step;
use crate::words::words_into;

// Why a run file is not read.
#[derive(Clone, Copy, PartialEq, Eq, Debug)]
pub enum ReadFault {
    Header(HeaderFault),
    // A table has fewer rows than the header announces.
    TooShort,
    Entry(BadRecord<RecordFault>),
    Step(BadRecord<RecordFault>),
}

impl From<HeaderFault> for ReadFault {
    ghost from_gives = { λ e r. r ≡ of_read.Header e };

    fn from(fault: HeaderFault) -> ReadFault {
        ReadFault::Header(fault)
    }
}

// Whether tables of so many rows hold what the header announces.
fn has_room(header: Header, words: usize, entries: usize, steps: usize) -> bool
    ensures { result ≡ has_room header words entries steps }
{
    header.size as usize <= words
        && header.entries as usize <= entries
        && header.steps as usize <= steps
}

// Refuses the first record that is against the layout, entries before steps.
fn check_file(file: RunFile<'_>) -> Result<(), ReadFault>
    ensures entries { MatchResult result (λ _. fault_in (records_of decode_entry file.entry.entries.now file.entry.header.entries) ≡ None) (λ f. file_read file.entry.header file.entry.words.now file.entry.entries.now file.entry.steps.now ≡ Err f) }
    ensures steps { OnOk result (fault_in (records_of decode_step file.entry.steps.now file.entry.header.steps) ≡ None) }
{
    check_records::<CardEntry>(file.entries, file.header.entries).map_err(ReadFault::Entry)?;
    check_records::<Step>(file.steps, file.header.steps).map_err(ReadFault::Step)
}

// Reads a run file into the first rows of the tables; a refused call leaves them as they were.
pub fn read_run(
    bytes: &[u8],
    words: &mut [u32],
    entries: &mut [CardEntry],
    steps: &mut [Step],
) -> Result<Header, ReadFault>
    ensures answer { result ≡ header_read (reading bytes.now words.old entries.old steps.old) }
    ensures words { words.new ≡ words_after (reading bytes.now words.old entries.old steps.old) words.old }
    ensures entries { entries.new ≡ entries_after (reading bytes.now words.old entries.old steps.old) entries.old }
    ensures steps { steps.new ≡ steps_after (reading bytes.now words.old entries.old steps.old) steps.old }
    ensures refusal { RefusedWith read_refusal (expected_refusal bytes.now words.old entries.old steps.old) result }
{
    let file = RunFile::open(bytes)?;
    if !has_room(file.header, words.len(), entries.len(), steps.len()) {
        return Err(ReadFault::TooShort);
    }
    check_file(file)?;
    words_into(file.words, words);
    records_into(file.entries, file.header.entries, entries);
    records_into(file.steps, file.header.steps, steps);
    Ok(file.header)
}
