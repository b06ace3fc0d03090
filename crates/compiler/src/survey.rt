ghost use Rattle.std.specs.Prelude.{◌≡◌, ◌*◌, ◌≤◌};
ghost use Rattle.rules.specs.Tree.{Side as SideOf};
ghost use Rattle.rules.specs.Operations.{side_count};
ghost use Rattle.reader.specs.Lines.{side_of};

use crate::groups::Groups;
use crate::lines::Lines;
use reader::failure::Misread;
use reader::line::{Side, read_line};
use rules::limits::{INSTRUCTION_LIMIT, LINE_LIMIT};
use rules::ranged::Letter;
use rules::refusal::{Fault, Position, TextRefusal};

// What the lines above hold: their groups, how many they are, their instructions and group heads, the line of the first
// instruction past the limit, if one is, and the letter of the last line, if there is one.
#[derive(Drop)]
pub(crate) struct Survey {
    pub(crate) groups: Groups,
    pub(crate) lines: usize,
    pub(crate) instructions: usize,
    pub(crate) heads: usize,
    pub(crate) over: Option<usize>,
    pub(crate) last: Option<Letter>,
    ghost few: { (instructions ≤ 19 * lines) × (heads ≤ lines) },
}

// How many instructions a line's side has: its operations, or the one transfer.
fn instructions_of(side: &Side) -> usize
    ensures is { (z : SideOf) → side.now ≡ side_of z → result ≡ side_count z }
    ensures few { result ≤ 19 }
{
    match side {
        Side::Pair(operations) => operations.as_slice().len(),
        _ => 1,
    }
}

impl Survey {
    ghost use Rattle.std.specs.Prelude.{◌≡◌, ◌+◌, ◌<◌, ◌≤◌, List, [], length, if◌then◌else◌, Some, OnOk, nat_le};
    ghost use Rattle.rules.specs.Tree.{Line};
    ghost use Rattle.rules.specs.Texts.{Text, parsed};
    ghost use Rattle.rules.specs.Words.{same_group};
    ghost use Rattle.compiler.specs.Onward.{over_with};
    ghost use Rattle.compiler.specs.Counted.{Counted, Added, Ended, Surveyed};

    fn new() -> Survey
        ensures { Counted result [] }
    {
        Survey {
            groups: Groups::new(),
            lines: 0,
            instructions: 0,
            heads: 0,
            over: None,
            last: None,
        }
    }

    // Counts a line of a group.
    fn count(&mut self, group: Letter, instructions: usize)
        requires { (self.old.lines < 16384) × (instructions ≤ 19) }
        ensures groups { self.new.groups ≡ self.old.groups }
        ensures lines { self.new.lines ≡ self.old.lines + 1 }
        ensures instructions { self.new.instructions ≡ self.old.instructions + instructions }
        ensures heads { self.new.heads ≡ self.old.heads + (if same_group self.old.last group then 0 else 1) }
        ensures over { self.new.over ≡ over_with self.old.over (nat_le (self.old.instructions + instructions) 372) (self.old.lines + 1) }
        ensures last { self.new.last ≡ Some group }
    {
        self.lines += 1;
        self.instructions += instructions;
        if self.over.is_none() && self.instructions > INSTRUCTION_LIMIT {
            self.over = Some(self.lines);
        }
        if self.last != Some(group) {
            self.heads += 1;
        }
        self.last = Some(group);
    }

    // Reads one line more.
    fn add(&mut self, bytes: &[u8]) -> Result<(), TextRefusal>
        requires { self.old.lines < 16384 }
        ensures reads { (above : List Line) (t : Text) → Counted self.old above → Added bytes.now t above result self.new }
        ensures lines { OnOk result (self.new.lines ≡ self.old.lines + 1) }
    {
        let line = self.lines + 1;
        // A `match`, since through `map_err` and `?` the proof would not know what was read.
        let read = match read_line(bytes) {
            Ok(read) => read,
            Err(Misread { fault, place }) => return Err(fault.at(Position { line, place })),
        };
        if !self.groups.admits(read.group) {
            return Err(TextRefusal::GroupOutOfPlace(Position { line, place: 1 }));
        }
        self.groups.note(read.group, read.target);
        self.count(read.group, instructions_of(&read.side));
        Ok(())
    }

    // Sees that nothing follows the last line end and that no group is open.
    fn end(&self, rest: &[u8]) -> Result<(), TextRefusal>
        requires { self.now.lines ≤ 16384 }
        ensures { (above : List Line) → Counted self.now above → Ended rest.now above result }
    {
        let line = self.lines + 1;
        if !rest.is_empty() {
            let place = rest.len().min(LINE_LIMIT) + 1;
            return Err(Fault::LineEndMissing.at(Position { line, place }));
        }
        if !self.groups.all_closed() {
            return Err(TextRefusal::GroupOutOfPlace(Position { line, place: 0 }));
        }
        Ok(())
    }

    // Reads all lines of a text, one after another.
    pub(crate) fn of(text: &[u8]) -> Result<Survey, TextRefusal>
        requires { length text.now ≤ 16384 }
        ensures { Surveyed (parsed text.now) result }
    {
        let mut found = Survey::new();
        let mut lines = Lines::of(text);
        // No `for` over `lines.by_ref()`: what is left behind the last line is asked for below, and the proof would not know it.
        while let Some(bytes) = lines.next() {
            found.add(bytes)?;
        }
        found.end(lines.rest())?;
        Ok(found)
    }
}
