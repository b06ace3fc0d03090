ghost use Rattle.std.specs.Prelude.{◌≡◌, ◌≤◌, [], length};
ghost use Rattle.rules.specs.Reading.{opening_at, side_at, target_at, line_at, line_read};
ghost use Rattle.reader.specs.Told.{Reads, Told, First};
ghost use Rattle.reader.specs.Sides.{alone as alone_of, SideRead, PartsRead};

use crate::cursor::{Cursor, start};
use crate::failure::{Failure, Misread};
use crate::operations::Operations;
use crate::pairs::{Depth, LineReader};
use rules::formula::{Atom, Start, Target};
use rules::limits::LINE_LIMIT;
use rules::operation::{LineParts, SideKind, Source};
use rules::ranged::Letter;
use rules::refusal::Fault;

// What a line works out: a reading, what one atom names, or the operations of a pair in the order in which they are worked.
#[derive(Drop)]
pub enum Side {
    Reading,
    Single(Atom),
    Pair(Operations),
}

// A line that was read.
#[derive(Drop)]
pub struct ReadLine {
    pub group: Letter,
    pub side: Side,
    pub target: Target,
}

// The atom that stands alone before a comma.
fn alone(left: Source, after: &[u8]) -> Option<Atom>
    ensures { result ≡ alone_of left after.now }
{
    match (left, after) {
        (Source::Named(atom), [b',', ..]) => Some(atom),
        _ => None,
    }
}

impl<'a> Cursor<'a> {
    // A line opens with a group letter and a comma.
    fn opening(&mut self) -> Result<Letter, Failure>
        ensures { Reads (opening_at self.old.rest.now) result self.new.rest.now }
    {
        let line = self.rest;
        let [letter, after @ ..] = line else {
            return Err(self.out_of_place());
        };
        let Ok(group) = Letter::try_from(u64::from(*letter)) else {
            return Err(self.out_of_place());
        };
        self.rest = after;
        // by its slice, as a line reads: a letter, a comma, the rest
        match line {
            [_letter, comma, rest @ ..] if *comma == b',' => {
                self.rest = rest;
                Ok(group)
            }
            _ => Err(self.out_of_place()),
        }
    }

    // Where the result goes: a variable, a pointed cell, the label or the place register.
    fn target(&mut self) -> Result<Target, Failure>
        ensures { Reads (target_at self.old.rest.now) result self.new.rest.now }
    {
        let [head, rest @ ..] = self.rest else {
            return Err(self.out_of_place());
        };
        match start(*head) {
            Start::Variable => Ok(Target::Variable(self.letter(b'a')?)),
            Start::Pointer => {
                self.rest = rest;
                Ok(Target::Pointed(self.letter(b'a')?))
            }
            Start::Other if *head == b'?' => {
                self.rest = rest;
                Ok(Target::Label)
            }
            Start::Other if *head == b'#' => {
                self.rest = rest;
                Ok(Target::Place)
            }
            _ => Err(self.out_of_place()),
        }
    }
}

impl<'a> LineReader<'a> {
    // A reading, an atom that stands alone, or a pair, whose operations are pushed. They stay with the reader until the whole line
    // is read, since a row of them takes more than a kilobyte and is not to be moved from call to call.
    fn side(&mut self) -> Result<SideKind, Failure>
        requires bytes { length self.old.cursor.rest.now ≤ 78 }
        requires operations { self.old.operations.items ≡ [] }
        ensures { SideRead (side_at self.old.cursor.rest.now) result self.new }
    {
        if let [b'?', rest @ ..] = self.cursor.rest {
            self.cursor.rest = rest;
            return Ok(SideKind::Reading);
        }
        let depth = Depth::none();
        let left = self.operand(depth)?;
        if let Some(atom) = alone(left, self.cursor.rest) {
            return Ok(SideKind::Single(atom));
        }
        self.second(left, depth)?;
        Ok(SideKind::Pair)
    }

    // Opening, side, comma and target, and nothing more.
    fn parts(&mut self) -> Result<LineParts, Failure>
        requires bytes { length self.old.cursor.rest.now ≤ 80 }
        requires operations { self.old.operations.items ≡ [] }
        ensures { PartsRead (line_at self.old.cursor.rest.now) result self.new }
    {
        let group = self.cursor.opening()?;
        let side = self.side()?;
        self.cursor.byte(b',')?;
        let target = self.cursor.target()?;
        if !self.cursor.rest.is_empty() {
            return Err(self.cursor.out_of_place());
        }
        Ok(LineParts {
            group,
            side,
            target,
        })
    }
}

// Reads one line, its line end left out. Where it fails, the bytes before the place begin some line, and with what stands
// at the place they begin none.
pub fn read_line(text: &[u8]) -> Result<ReadLine, Misread>
    ensures told { Told (length text.now) (line_read text.now) result }
    ensures first { First text.now result }
{
    if text.len() > LINE_LIMIT {
        return Err(Misread {
            fault: Fault::LineEndMissing,
            place: LINE_LIMIT + 1,
        });
    }
    let mut reader = LineReader {
        cursor: Cursor { rest: text },
        operations: Operations::new(),
    };
    // no `map_err`: that a failure leaves no more bytes than there were is known of this one only
    let LineParts {
        group,
        side,
        target,
    } = match reader.parts() {
        Ok(parts) => parts,
        Err(e) => {
            return Err(Misread {
                fault: e.fault,
                place: text.len() + 1 - e.left,
            });
        }
    };
    // the whole answer in each case, so that the row of operations is moved into it once, and for a pair only
    match side {
        SideKind::Reading => Ok(ReadLine {
            group,
            side: Side::Reading,
            target,
        }),
        SideKind::Single(atom) => Ok(ReadLine {
            group,
            side: Side::Single(atom),
            target,
        }),
        SideKind::Pair => Ok(ReadLine {
            group,
            side: Side::Pair(reader.operations),
            target,
        }),
    }
}
