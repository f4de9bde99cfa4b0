// Encoding of a frame that comes in portions: the rows of checks go from call to call in a state.
ghost use Rattle.std.specs.Prelude.{◌≡◌};
ghost use Rattle.frame_portions.specs.Portions.{none_taken, PortionOutcome, CloseOutcome};

use crate::Progress;
use encoding::{rows_entered, write_checks};
use octets::copy_front;
use refusals::{Code, Parameter, close_parameters, portion_parameters};

// Nothing is written before every check has passed: a refusal leaves state and output as they were.
impl Progress {
    pub fn start() -> Progress
        ensures { result ≡ none_taken }
    {
        Progress {
            place: 0,
            closed: false,
            rows: [[0u8; 32]; 8],
        }
    }

    pub fn portion(
        &mut self,
        code: Code,
        symbols: &[u8],
        written: &mut [u8],
    ) -> Result<(), Parameter>
        ensures { PortionOutcome code.strength code.depth code.fill self.old symbols.now written.old result self.new written.new }
    {
        let n = symbols.len();
        portion_parameters(code, n, written.len(), self.place, self.closed)?;
        let words = code.depth as usize;
        let word = self.place as usize % words;
        self.rows = rows_entered(code.strength, self.rows, word, symbols, words);
        self.place += n as u32;
        copy_front(symbols, written);
        Ok(())
    }

    pub fn close(&mut self, code: Code, checks: &mut [u8]) -> Result<(), Parameter>
        ensures { CloseOutcome code.strength code.depth code.fill self.old checks.old result self.new checks.new }
    {
        close_parameters(code, checks.len(), self.place, self.closed)?;
        write_checks(self.rows, code.depth as usize, 0, checks);
        self.closed = true;
        Ok(())
    }
}
