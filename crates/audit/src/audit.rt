// The audit of one run file.
ghost use Rattle.std.specs.Prelude.{◌≡◌, ℕ, ◌*◌, ◌≤◌, true, length, Ok};
ghost use Rattle.memory.specs.Bytes.{words_of};
ghost use Rattle.run.specs.Runs.{SameTables};
ghost use Rattle.audit.specs.Accepted.{Accepted};
ghost use Rattle.audit.specs.Audit.{tables_of, records_audited, roomy, words_back, audited};

use crate::fault::FileFault;
use crate::records::{Done, work_records};
use crate::sound::SoundFile;
use crate::verdict::{AuditFault, Verdict};
use files::run_file::RunFile;
use files::words::words_into;
use memory::copying::copy_words;
use memory::word_table::WordTable;
use run::rows::Tables;

const MAX_SIZE: usize = 1024;

// Whether the tables can hold the run that the header announces.
fn has_room(sound: &SoundFile<'_>, words: &[u32], tables: &Tables<'_, u32>) -> bool
    ensures { result ≡ roomy sound.now.file.header (length words.now) (length tables.now.cards.now) (length tables.now.code.now) (length tables.now.cells.now) }
{
    let count = sound.file.header.cards as usize;
    let size = sound.file.header.size as usize;
    size <= words.len()
        && count <= tables.cards.len()
        && 256 * count <= tables.code.len()
        && count * size <= tables.cells.len()
}

// Works the records over a table of as many words as the run's memory has, and copies the words that they leave.
fn audit_over(
    own: &mut [u32],
    sound: &SoundFile<'_>,
    words: &mut [u32],
    tables: &mut Tables<'_, u32>,
) -> Verdict
    requires own { length own.old ≡ sound.now.file.header.size }
    requires room { (sound.now.file.header.cards ≤ length tables.old.cards.now) × (sound.now.file.header.cards * sound.now.file.header.size ≤ length tables.old.cells.now) }
    ensures audited { record { answer = Ok result; left = tables_of words.new tables.new } ≡ words_back words.old (records_audited sound.now.file.header sound.now.file.entries.now sound.now.file.steps.now (tables_of (words_of sound.now.file.words.now) tables.old)) }
    ensures tables { SameTables tables.old tables.new }
{
    words_into(sound.file.words, own);
    let Done { memory, verdict } = work_records(WordTable::over(own), tables, sound);
    copy_words(&memory, words);
    verdict
}

// Audits a run file. The verdict is a result, and the tables keep what the accepted records made; the first rows of `words` are the run's memory.
pub fn audit_run(
    bytes: &[u8],
    words: &mut [u32],
    tables: &mut Tables<'_, u32>,
) -> Result<Verdict, AuditFault>
    ensures audited { record { answer = result; left = tables_of words.new tables.new } ≡ audited bytes.now (tables_of words.old tables.old) }
    ensures ok { (n : ℕ) → result ≡ Ok (Ok n) → Accepted bytes.now (tables_of words.old tables.old) n }
    ensures tables { SameTables tables.old tables.new }
{
    // Kept: a `match`, since a broken header is a verdict and no error of the audit, which `?` would return.
    let sound = match RunFile::open(bytes) {
        Ok(file) => SoundFile { file },
        Err(fault) => return Ok(Err(FileFault::Header(fault))),
    };
    if !has_room(&sound, words, tables) {
        return Err(AuditFault::TooShort);
    }
    let mut own = [0; MAX_SIZE];
    let size = sound.file.header.size as usize;
    Ok(audit_over(&mut own[..size], &sound, words, tables))
}
