ghost use Rattle.std.specs.Prelude.{◌≡◌, ℕ, ◌≤◌, [], length, slice_index};
ghost use Rattle.digits.specs.Text.{line_of};
ghost use Rattle.rules.specs.Labels.{greatest_code, label_limit};
ghost use Rattle.std.proofs.Common.{rules};

use crate::label_line::LabelLine;
use digits::line::NumberLine;
use rules::limits::LABEL_LIMIT;
use rules::refusal::Cause;

// Forty-eight codes of three digits, each with its comma.
const LINE_BYTES: usize = 192;

// A label line in digits and commas: each code in digits, followed by a comma. A type of its own beside the queue in digits,
// since each is a kind of its own trait; what they share is `NumberLine`.
#[derive(Drop)]
pub struct DigitLine {
    line: NumberLine<LINE_BYTES>,
    ghost sound: { (length line ≤ label_limit) × ((i : ℕ) → slice_index line i ≤ greatest_code) },
}

impl DigitLine {
    // A line without codes.
    pub fn new() -> DigitLine
        ensures { result.line ≡ [] }
    {
        DigitLine {
            line: NumberLine::new(),
        }
    }

    // The bytes as they lie in the memory.
    pub fn as_bytes(&self) -> &[u8]
        ensures bytes { result.now ≡ line_of self.now.line }
        ensures fits { length result.now ≤ 192 }
    {
        self.line.as_bytes()
    }
}

impl LabelLine for DigitLine {
    ghost codes = { λ line. line.line };

    ghost short = { Prim.search rules };

    ghost bytes = { Prim.search rules };

    fn count(&self) -> usize {
        self.line.count()
    }

    fn get(&self, index: usize) -> Option<u8> {
        u8::try_from(self.line.get(index)?).ok()
    }

    fn clear(&mut self) {
        self.line.clear();
    }

    fn push(&mut self, code: u8) -> Result<(), Cause> {
        if self.line.count() == LABEL_LIMIT {
            return Err(Cause::LabelFull);
        }
        // three digits and a comma always find room behind 47 codes
        self.line
            .push(u64::from(code))
            .map_err(|_| Cause::LabelFull)
    }
}
