// A line of the report, written out. It has at most 51 bytes.
ghost use Rattle.std.specs.Prelude.{◌≡◌, ◌+◌, ◌≤◌, ◌++◌, decimal};
ghost use Rattle.arrayvec.specs.ArrayString.{array_string_len};
ghost use Rattle.report.specs.Lines.{heading_bytes, line_bytes, saying_bytes};

use crate::heading::Heading;
use crate::line::{Line, Saying};
use arrayvec::ArrayString;
use itoa::Buffer;

// Kept: parts pushed one by one, since no clause excludes the error of `write!`, and a line is refused only for want of room in the text.
fn push_number(text: &mut ArrayString<64>, n: u32)
    requires { array_string_len text.old + 10 ≤ 64 }
    ensures bytes { text.new.bytes ≡ text.old.bytes ++ decimal n }
    ensures len { array_string_len text.new ≤ array_string_len text.old + 10 }
{
    let mut digits = Buffer::new();
    text.push_str(digits.format(n));
}

impl Heading {
    fn push_to(self, text: &mut ArrayString<64>)
        requires { array_string_len text.old + 14 ≤ 64 }
        ensures bytes { text.new.bytes ≡ text.old.bytes ++ heading_bytes self }
        ensures len { array_string_len text.new ≤ array_string_len text.old + 14 }
    {
        match self {
            Heading::Day => text.push_str("day"),
            Heading::Run(n) => {
                text.push_str("run ");
                push_number(text, n);
            }
        }
    }
}

impl Saying {
    fn push_to(self, text: &mut ArrayString<64>)
        requires { array_string_len text.old + 35 ≤ 64 }
        ensures bytes { text.new.bytes ≡ text.old.bytes ++ saying_bytes self }
        ensures len { array_string_len text.new ≤ array_string_len text.old + 35 }
    {
        match self {
            Saying::Ok { steps } => {
                text.push_str("ok ");
                push_number(text, steps);
            }
            Saying::No {
                number,
                layer,
                place,
            } => {
                text.push_str("no ");
                push_number(text, number);
                text.push_str(" ");
                push_number(text, layer);
                text.push_str(" ");
                push_number(text, place);
            }
            Saying::Totals { runs, ok } => {
                push_number(text, runs);
                text.push_str(" ");
                push_number(text, ok);
            }
            Saying::Broken { number } => {
                text.push_str("no ");
                push_number(text, number);
            }
        }
    }
}

impl Line {
    pub(crate) fn text(self) -> ArrayString<64>
        ensures { result.bytes ≡ line_bytes self }
    {
        let mut text = ArrayString::new();
        self.heading.push_to(&mut text);
        text.push_str(" ");
        self.saying.push_to(&mut text);
        text.push_str("\n");
        text
    }
}
