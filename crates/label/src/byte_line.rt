ghost use Rattle.std.specs.Prelude.{◌≡◌, ℕ, ◌≤◌, [], length, slice_index};
ghost use Rattle.rules.specs.Labels.{label_limit, greatest_code};
ghost use Rattle.std.proofs.Common.{rules};

use crate::label_line::LabelLine;
use arrayvec::ArrayVec;
use rules::limits::LABEL_LIMIT;
use rules::refusal::Cause;

// A label line of one byte a code.
#[derive(Drop)]
pub struct ByteLine {
    codes: ArrayVec<u8, LABEL_LIMIT>,
    ghost sound: { (length codes.items ≤ label_limit) × ((i : ℕ) → slice_index codes.items i ≤ greatest_code) },
}

impl ByteLine {
    // A line without codes.
    pub fn new() -> ByteLine
        ensures { result.codes.items ≡ [] }
    {
        ByteLine {
            codes: ArrayVec::new(),
        }
    }
}

impl LabelLine for ByteLine {
    ghost codes = { λ line. line.codes.items };

    ghost short = { Prim.search rules };

    ghost bytes = { Prim.search rules };

    fn count(&self) -> usize {
        self.codes.len()
    }

    fn get(&self, index: usize) -> Option<u8> {
        self.codes.get(index).copied()
    }

    fn clear(&mut self) {
        self.codes.clear();
    }

    fn push(&mut self, code: u8) -> Result<(), Cause> {
        self.codes.try_push(code).map_err(|_| Cause::LabelFull)
    }
}
