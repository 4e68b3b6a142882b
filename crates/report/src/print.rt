ghost use Rattle.std.specs.Prelude.{◌≡◌, ◌≤◌, true, length, is_ok};
ghost use Rattle.report.specs.Lines.{line_bytes};
ghost use Rattle.report.specs.Printing.{Printed, room_of};
ghost use Rattle.report.specs.Texts.{page_of};

use crate::line::Line;
use crate::text::{Text, TextFault};

impl<'a> Text<'a> {
    // Puts a line behind what is written, whole or not at all.
    pub fn print(&mut self, line: Line) -> Result<(), TextFault>
        ensures printed { Printed (page_of self.old) line (page_of self.new) result }
        ensures enough { 64 ≤ room_of (page_of self.old) → is_ok result ≡ true }
        ensures short { length (line_bytes line) ≤ 64 }
        ensures same { self.new.bytes.ghost_name ≡ self.old.bytes.ghost_name }
    {
        self.append(line.text().as_str().as_bytes())
    }
}

#[cfg(test)]
mod tests {
    use crate::heading::Heading;
    use crate::line::{Line, Saying};
    use crate::text::Text;

    // Each kind of line, into a table that they fill.
    #[test]
    fn lines(rt: HostRuntime) {
        let mut table = [0u8; 55];
        let mut text = Text::new(&mut table);
        let ok = Saying::Ok { steps: 5 };
        let no = Saying::No {
            number: 10,
            layer: 4,
            place: 4294967295,
        };
        let totals = Saying::Totals { runs: 2, ok: 1 };
        let broken = Saying::Broken { number: 15 };
        assert!(rt;
            text.print(Line {
                heading: Heading::Run(0),
                saying: ok,
            })
            .is_ok()
        );
        assert!(rt;
            text.print(Line {
                heading: Heading::Run(31),
                saying: no,
            })
            .is_ok()
        );
        assert!(rt;
            text.print(Line {
                heading: Heading::Day,
                saying: totals,
            })
            .is_ok()
        );
        assert!(rt;
            text.print(Line {
                heading: Heading::Day,
                saying: broken,
            })
            .is_ok()
        );
        assert_eq!(rt; text.len(), 55);
        assert_eq!(rt;
            table,
            *b"run 0 ok 5\nrun 31 no 10 4 4294967295\nday 2 1\nday no 15\n"
        );
    }
}
