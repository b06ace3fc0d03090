ghost use Rattle.std.specs.Prelude.{◌≡◌, ℕ, ◌≤◌, List, [], length, slice_index};
ghost use Rattle.std.specs.List.{slice_get};
ghost use Rattle.rules.specs.Numbers.{numbered, caused};
ghost use Rattle.rules.specs.Calls.{left_by, answer_of};
ghost use Rattle.rules.specs.Labels.{label_limit, greatest_code, places, code_at, printed};

use rules::limits::LABEL_LIMIT;
use rules::refusal::{Cause, Refusal};

// A line of at most 48 codes. Whoever writes a kind of label line says by `codes` what its memory means, and owes the two laws.
pub trait LabelLine {
    ghost codes: { Self → List ℕ };

    // How many codes there are.
    fn count(&self) -> usize
        ensures { result ≡ length (codes self.now) };

    // The code at an index, from 0, if there is one.
    fn get(&self, index: usize) -> Option<u8>
        ensures { result ≡ slice_get (codes self.now) index };

    // Removes all codes.
    fn clear(&mut self)
        ensures { codes self.new ≡ [] };

    // Puts a code at the end; 35, with the line as it was, where the label is full.
    fn push(&mut self, code: u8) -> Result<(), Cause>
        ensures answer { caused result ≡ answer_of (printed (codes self.old) code) }
        ensures after { codes self.new ≡ left_by (printed (codes self.old) code) (codes self.old) };

    // The code at a place, from 1; 18 where there is none.
    fn code(&self, place: usize) -> Result<u8, Refusal>
        ensures { numbered result ≡ code_at (codes self.now) place }
    {
        let index = place.checked_sub(1).ok_or(Refusal::NoCode)?;
        self.get(index).ok_or(Refusal::NoCode)
    }

    // Puts a code at the end; 35 where the label is full, then 36 for a code above 255. A refusal leaves the line as it was.
    fn add(&mut self, code: u64) -> Result<(), Cause>
        ensures answer { caused result ≡ answer_of (printed (codes self.old) code) }
        ensures after { codes self.new ≡ left_by (printed (codes self.old) code) (codes self.old) }
    {
        if self.count() == LABEL_LIMIT {
            return Err(Cause::LabelFull);
        }
        let code = u8::try_from(code).map_err(|_| Cause::CodeTooLarge)?;
        self.push(code)
    }

    ghost short: { (s : Self) → places (codes s) ≤ label_limit };

    ghost bytes: { (s : Self) (i : ℕ) → slice_index (codes s) i ≤ greatest_code };
}
