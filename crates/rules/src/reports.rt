ghost use Rattle.std.specs.Prelude.{◌≡◌, Some, decimal};
ghost use Rattle.rules.specs.declared.refusal.Refusal.TheVariants as refusals;
ghost use Rattle.rules.specs.Numbers.{refusal_number, cause_number};
ghost use Rattle.rules.specs.Refusals.{fault_number, placed, report_text, reported};

use crate::ranged::OutOfRange;
use crate::refusal::{Cause, Fault, Position, Refusal, Report, TextRefusal};
use std::fmt;

impl Fault {
    // The refusal of a text whose line fails at a place.
    pub fn at(self, position: Position) -> TextRefusal
        ensures { result ≡ placed self position.line position.place }
    {
        TextRefusal::Unreadable(self, position)
    }
}

impl From<TextRefusal> for Report {
    ghost from_gives = { λ r p. p ≡ reported r };

    fn from(refusal: TextRefusal) -> Report {
        let (number, at) = match refusal {
            TextRefusal::TextTooLong => (1, NOWHERE),
            TextRefusal::Unreadable(fault, at) => (u8::from(fault), at),
            TextRefusal::GroupOutOfPlace(at) => (6, at),
            TextRefusal::LetterWithoutGroup(at) => (7, at),
            TextRefusal::TooManyConstants(at) => (8, at),
            TextRefusal::TooManyInstructions { line } => (9, Position { line, place: 0 }),
            TextRefusal::TapeTooShort => (10, NOWHERE),
        };
        Report { number, at }
    }
}

// No line and no place.
const NOWHERE: Position = Position { line: 0, place: 0 };

impl fmt::Display for Report {
    ghost output = { λ r. Some (report_text r) };

    fn fmt<W: fmt::Write>(&self, f: &mut fmt::Formatter<W>) -> fmt::Result {
        write!(
            f,
            "refused,{},{},{}",
            self.number, self.at.line, self.at.place
        )
    }
}

// Three impls of one line, since `From` asks for one for each type; the cast gives the number that a case is worth.
impl From<Fault> for u8 {
    ghost from_gives = { λ f n. n ≡ fault_number f };

    fn from(fault: Fault) -> u8 {
        fault as u8
    }
}

impl From<Refusal> for u8 {
    ghost from_gives = { λ r n. n ≡ refusal_number r };

    fn from(refusal: Refusal) -> u8 {
        refusal as u8
    }
}

impl From<Cause> for u8 {
    ghost from_gives = { λ c n. n ≡ cause_number c };

    fn from(cause: Cause) -> u8 {
        cause as u8
    }
}

impl From<OutOfRange> for Refusal {
    ghost from_gives = { λ _ r. r ≡ refusals.OutOfRange };

    fn from(_: OutOfRange) -> Refusal {
        Refusal::OutOfRange
    }
}
