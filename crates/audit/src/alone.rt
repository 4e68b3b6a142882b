// An audit that needs no lent table.
ghost use Rattle.std.specs.Prelude.{◌≡◌, ℕ, Ok};
ghost use Rattle.audit.specs.Accepted.{Accepted};
ghost use Rattle.audit.specs.Alone.{fresh, verdict_of};

use crate::audit::audit_run;
use crate::verdict::Verdict;
use run::rows::{CardRecord, Cell, CodeRow, StepRow, Tables};

// The verdict on a run file, by tables of its own.
pub fn audit_alone(bytes: &[u8]) -> Verdict
    ensures verdict { result ≡ verdict_of bytes.now }
    ensures ok { (n : ℕ) → result ≡ Ok n → Accepted bytes.now fresh n }
{
    let mut words = [0; 1024];
    let mut cards = [CardRecord::EMPTY; 8];
    let mut code = [CodeRow::empty(); 2048];
    let mut cells = [Cell::Absent; 8192];
    let mut steps = [StepRow::Unused; 4096];
    let mut tables = Tables {
        cards: &mut cards,
        code: &mut code,
        cells: &mut cells,
        steps: &mut steps,
    };
    audit_run(bytes, &mut words, &mut tables).unwrap()
}
