ghost use Rattle.audit.specs.Alone.{verdict_of};
ghost use Rattle.std.specs.Prelude.{◌≡◌, ◌≤◌, length, IfOk, is_ok};
ghost use Rattle.report.specs.Lines.{line_bytes};
ghost use Rattle.report.specs.Printing.{Printed};
ghost use Rattle.report.specs.Reports.{run_line, saying_of};
ghost use Rattle.report.specs.Texts.{page_of};

use crate::heading::{HeadingGuard, HeadingRecord};
use crate::line::{Line, Saying};
use crate::text::{Text, TextFault};
use audit::alone::audit_alone;
use audit::verdict::Verdict;

// What a run's line says of its verdict.
impl From<Verdict> for Saying {
    ghost from_gives = { λ verdict saying. saying ≡ saying_of verdict };

    fn from(verdict: Verdict) -> Saying {
        match verdict {
            Ok(steps) => Saying::Ok { steps },
            Err(fault) => Saying::No {
                number: fault.number(),
                layer: fault.layer(),
                place: fault.place(),
            },
        }
    }
}

// Audits run `n` and prints its line under its heading; whether the run is ok.
pub fn report_run(
    kept: &mut HeadingRecord,
    text: &mut Text<'_>,
    n: u32,
    bytes: &[u8],
) -> Result<bool, TextFault>
    ensures heading { kept.new.heading ≡ kept.old.heading }
    ensures printed { Printed (page_of text.old) (run_line n (verdict_of bytes.now)) (page_of text.new) result }
    ensures ok { IfOk result (λ ok. ok ≡ is_ok (verdict_of bytes.now)) }
    ensures short { length (line_bytes (run_line n (verdict_of bytes.now))) ≤ 64 }
    ensures same { text.new.bytes.ghost_name ≡ text.old.bytes.ghost_name }
{
    let guard = HeadingGuard::over(kept, n);
    let verdict = audit_alone(bytes);
    text.print(Line {
        heading: guard.heading(),
        saying: verdict.into(),
    })?;
    Ok(verdict.is_ok())
}
