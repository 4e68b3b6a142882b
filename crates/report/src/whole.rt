// The report of a day file, as a program prints it.
ghost use Rattle.std.specs.Prelude.{◌≡◌, ◌≤◌, true, length, IfOk, is_ok};
ghost use Rattle.report.specs.Printing.{TextPrinted};
ghost use Rattle.report.specs.Reports.{report_lines};
ghost use Rattle.report.specs.Texts.{empty_page};
ghost use Rattle.report.specs.declared.heading.Heading.TheVariants.{Day};

use crate::day::report_day;
use crate::heading::{Heading, HeadingRecord};
use crate::text::{Text, TextFault};

// How many bytes suffice for every report: 33 lines of at most 64 bytes.
pub const REPORT_BYTES: usize = 2112;

// Puts the report of a day file into the first bytes of the table; how many bytes it has.
pub fn day_text(input: &[u8], table: &mut [u8]) -> Result<usize, TextFault>
    ensures printed { TextPrinted (empty_page table.old) (report_lines Day input.now) table.new result }
    ensures inside { IfOk result (λ n. n ≤ length table.new) }
    ensures enough { 2112 ≤ length table.old → is_ok result ≡ true }
{
    let mut kept = HeadingRecord {
        heading: Heading::Day,
    };
    let mut text = Text::new(table);
    report_day(input, &mut kept, &mut text)?;
    Ok(text.len())
}
