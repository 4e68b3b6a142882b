ghost use Rattle.std.specs.Prelude.{◌≡◌, ◌<◌, ◌≤◌, true, length, is_ok, IfOk, OnErr};
ghost use Rattle.audit.specs.Alone.{verdict_of};
ghost use Rattle.files.specs.Day.{sound_day, run_count, run_part};
ghost use Rattle.report.specs.Lines.{line_bytes};
ghost use Rattle.report.specs.Printing.{AllPrinted, Printed, Roomy, Stopped, room_of};
ghost use Rattle.report.specs.Reports.{day_verdicts, ok_count, report_lines, run_line, run_lines};
ghost use Rattle.report.specs.Texts.{page_of};

use crate::heading::HeadingRecord;
use crate::line::{Line, Saying};
use crate::runs::report_run;
use crate::text::{Text, TextFault};
use files::day::DayFile;

// The line of run `n` of the day; whether the run is ok.
// Kept: the heading's record and the text side by side, here and below. In one struct of two `&mut`s each function would promise of two
// references what it now promises of one.
fn report_nth(
    day: &DayFile<'_>,
    kept: &mut HeadingRecord,
    text: &mut Text<'_>,
    n: usize,
) -> Result<bool, TextFault>
    requires { n < run_count day.now.bytes.now }
    ensures heading { kept.new.heading ≡ kept.old.heading }
    ensures printed { Printed (page_of text.old) (run_line n (verdict_of (run_part day.now.bytes.now n))) (page_of text.new) result }
    ensures ok { IfOk result (λ ok. ok ≡ is_ok (verdict_of (run_part day.now.bytes.now n))) }
    ensures short { length (line_bytes (run_line n (verdict_of (run_part day.now.bytes.now n)))) ≤ 64 }
    ensures same { text.new.bytes.ghost_name ≡ text.old.bytes.ghost_name }
{
    report_run(kept, text, n as u32, day.run(n).unwrap().bytes)
}

// The lines of the day's runs; how many of the runs are ok.
fn report_runs(
    day: &DayFile<'_>,
    kept: &mut HeadingRecord,
    text: &mut Text<'_>,
) -> Result<u32, TextFault>
    ensures heading { kept.new.heading ≡ kept.old.heading }
    ensures printed { AllPrinted (page_of text.old) (run_lines 0 (day_verdicts day.now.bytes.now)) (page_of text.new) result }
    ensures ok { IfOk result (λ ok. ok ≡ ok_count (day_verdicts day.now.bytes.now)) }
    ensures room { Roomy 64 (run_count day.now.bytes.now) (page_of text.old) (page_of text.new) result }
    ensures same { text.new.bytes.ghost_name ≡ text.old.bytes.ghost_name }
{
    let mut ok = 0;
    // Kept: runs by number, as each line tells it; an iterator of runs would be numbered again, and have its own loop over the header.
    for n in 0..day.count() {
        ok += u32::from(report_nth(day, kept, text, n)?);
    }
    Ok(ok)
}

// Prints the report of a day file: a line for each run, then the day's, or only that its header is broken.
pub fn report_day(
    input: &[u8],
    kept: &mut HeadingRecord,
    text: &mut Text<'_>,
) -> Result<(), TextFault>
    ensures heading { kept.new.heading ≡ kept.old.heading }
    ensures printed { AllPrinted (page_of text.old) (report_lines kept.old.heading input.now) (page_of text.new) result }
    ensures stops { OnErr result (Stopped (page_of text.old) (report_lines kept.old.heading input.now) (page_of text.new)) }
    ensures enough { 2112 ≤ room_of (page_of text.old) → is_ok result ≡ true }
    ensures same { text.new.bytes.ghost_name ≡ text.old.bytes.ghost_name }
{
    let saying = match DayFile::open(input) {
        Err(fault) => Saying::Broken {
            number: fault.number(),
        },
        Ok(day) => Saying::Totals {
            runs: day.count() as u32,
            ok: report_runs(&day, kept, text)?,
        },
    };
    text.print(Line {
        heading: kept.heading,
        saying,
    })
}

#[cfg(test)]
mod tests {
    use super::*;
    use crate::heading::Heading;

    // One run that has no bytes.
    const DAY: [u8; 12] = [1, 0, 0, 0, 12, 0, 0, 0, 0, 0, 0, 0];

    #[test]
    fn fills_the_table(rt: HostRuntime) {
        let mut kept = HeadingRecord {
            heading: Heading::Day,
        };
        let mut table = [b'.'; 24];
        let mut text = Text::new(&mut table);
        assert!(rt; report_day(&DAY, &mut kept, &mut text).is_ok());
        assert_eq!(rt; table, *b"run 0 no 15 2 0\nday 1 0\n");
    }

    // The table is one byte too short for the second line.
    #[test]
    fn lacks_a_byte(rt: HostRuntime) {
        let mut kept = HeadingRecord {
            heading: Heading::Day,
        };
        let mut table = [b'.'; 23];
        let mut text = Text::new(&mut table);
        assert!(rt; report_day(&DAY, &mut kept, &mut text).is_err());
        assert_eq!(rt; text.len(), 16);
        assert!(rt; matches!(kept.heading, Heading::Day));
        assert_eq!(rt; table, *b"run 0 no 15 2 0\n.......");
    }
}
