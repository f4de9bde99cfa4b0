// Texts that grow at their end: by octets, and by a number in decimal.
ghost use Rattle.std.specs.Prelude.{[], length};
ghost use Rattle.report_lines.specs.Lines.{decimal};
ghost use Rattle.report_lines.specs.Text.{Holds};
ghost use Rattle.report_lines.specs.Working.{Room, Added};

use crate::Text;

impl Text {
    pub(crate) fn new() -> Text
        ensures { Holds result [] }
    {
        Text {
            octets: [0; 96],
            len: 0,
        }
    }

    pub(crate) fn push(&mut self, more: &[u8])
        requires { Room self.old (length more.now) }
        ensures { Added self.old more.now self.new }
    {
        let start = self.len;
        let end = start + more.len();
        self.octets[start..end].copy_from_slice(more);
        self.len = end;
    }

    pub(crate) fn push_number(&mut self, number: u64)
        requires { Room self.old 20 }
        ensures { Added self.old (decimal number) self.new }
    {
        let mut digits = [0u8; 20];
        let k = io::decimal(number, &mut digits);
        self.push(&digits[..k]);
    }
}
