ghost use Rattle.std.specs.Prelude.{◌≤◌, length};

use crate::lines::SIDE_PLACE;
use arrayvec::{ArrayVec, CapacityError};
use reader::numbers::{constant, is_digit};
use rules::limits::CONSTANT_LIMIT;
use rules::refusal::{Position, TextRefusal};

// The different constants in order of first appearance, as many as there are cells for them.
#[derive(Drop)]
pub(crate) struct Constants {
    numbers: ArrayVec<u64, CONSTANT_LIMIT>,
    ghost few: { length numbers.items ≤ 46 },
}

impl Constants {
    ghost use Rattle.std.specs.Prelude.{◌≡◌, ◌<◌, ◌≤◌, false, [], length, MatchResult};
    ghost use Rattle.rules.specs.Reading.{constant_at};
    ghost use Rattle.rules.specs.Mentions.{place_of, noted};
    ghost use Rattle.compiler.specs.Held.{table};
    ghost use Rattle.compiler.specs.Scan.{scan, found};
    ghost use Rattle.compiler.specs.Mentioned.{Taken, TakenFirst};

    pub(crate) fn new() -> Constants
        ensures { table result ≡ [] }
    {
        Constants {
            numbers: ArrayVec::new(),
        }
    }

    pub(crate) fn as_slice(&self) -> &[u64]
        ensures { result.now ≡ table self.now }
    {
        self.numbers.as_slice()
    }

    // How many constants stand before this one; all of them where it is not there.
    pub(crate) fn place(&self, number: u64) -> usize
        ensures is { result ≡ place_of number (table self.now) }
        ensures few { result ≤ 46 }
    {
        let held = self.as_slice();
        held.iter().take_while(|c| **c != number).count()
    }

    // Takes in the constant, where it is new; an error where no cell is left for it.
    pub(crate) fn note(&mut self, number: u64) -> Result<(), CapacityError<u64>>
        ensures { MatchResult result (λ _. table self.new ≡ noted (table self.old) number) (λ _. (table self.new ≡ table self.old) × (46 < length (noted (table self.old) number))) }
    {
        if self.as_slice().contains(&number) {
            return Ok(());
        }
        self.numbers.try_push(number)
    }

    // Takes in the constant that the bytes begin with.
    fn take_first(&mut self, bytes: &[u8], at: Position) -> Result<(), TextRefusal>
        ensures { TakenFirst (found at.line at.place (constant_at bytes.now)) (table self.old) result (table self.new) }
    {
        if let Ok((number, _)) = constant(bytes) {
            self.note(number)
                .map_err(|_| TextRefusal::TooManyConstants(at))?;
        }
        Ok(())
    }

    // Takes in the constants of a line's side.
    pub(crate) fn take_side(&mut self, side: &[u8], line: usize) -> Result<(), TextRefusal>
        requires { length side.now ≤ 80 }
        ensures { Taken (scan line false 3 side.now) (table self.old) result (table self.new) }
    {
        let mut inside = false;
        for (i, byte) in side.iter().enumerate() {
            let digit = is_digit(*byte);
            let outside = !inside;
            if digit && outside {
                let place = SIDE_PLACE + i;
                self.take_first(&side[i..], Position { line, place })?;
            }
            inside = digit;
        }
        Ok(())
    }
}
