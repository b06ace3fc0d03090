ghost use Rattle.std.specs.Prelude.{◌≡◌, ◌+◌, ◌≤◌, IfOk, MatchOption};
ghost use Rattle.rules.specs.Reading.{depth_limit, operand_at, pair_at, second_at};
ghost use Rattle.rules.specs.Operations.{waiting_after};
ghost use Rattle.reader.specs.Pairs.{OperandRead, PairRead, SecondRead, Nested, Spare, weight};

use crate::cursor::{Cursor, start};
use crate::failure::Failure;
use crate::operations::Operations;
use rules::formula::{Atom, Start};
use rules::limits::DEPTH_LIMIT;
use rules::operation::{Operation, Source};
use rules::refusal::Fault;

// What is still to be read of a line, and the operations of what was read.
#[derive(Drop)]
pub(crate) struct LineReader<'a> {
    pub(crate) cursor: Cursor<'a>,
    pub(crate) operations: Operations,
}

// How many parentheses may still be opened, and how many results wait.
#[derive(Clone, Copy)]
pub(crate) struct Depth {
    room: u8,
    waiting: u8,
    ghost nested: { room + waiting ≤ 17 },
}

impl Depth {
    // No parenthesis is open and no result waits.
    pub(crate) fn none() -> Depth
        ensures room { result.room ≡ depth_limit }
        ensures waiting { result.waiting ≡ 0 }
    {
        Depth {
            room: DEPTH_LIMIT,
            waiting: 0,
        }
    }

    // One parenthesis deeper, where one more may be opened.
    fn inside(self) -> Option<Depth>
        ensures { MatchOption result (self.room ≡ 0) (λ d. (d.room + 1 ≡ self.room) × (d.waiting ≡ self.waiting)) }
    {
        let room = self.room.checked_sub(1)?;
        Some(Depth {
            room,
            waiting: self.waiting,
        })
    }

    // Once an operand is at hand, whose result may wait.
    fn after(self, operand: Source) -> Depth
        requires { Nested self.room self.waiting }
        ensures room { result.room ≡ self.room }
        ensures waiting { result.waiting ≡ waiting_after operand self.waiting }
    {
        match operand {
            Source::Named(_) => self,
            Source::Temporary(_) => Depth {
                room: self.room,
                waiting: self.waiting + 1,
            },
        }
    }
}

impl<'a> LineReader<'a> {
    // An operand.
    #[cycle(operand_pair_second)]
    pub(crate) fn operand(&mut self, depth: Depth) -> Result<Source, Failure>
        requires { Spare 78 self.old }
        ensures reads { OperandRead (operand_at depth.room self.old.cursor.rest.now) depth.waiting self.old result self.new }
        ensures spent { IfOk result (λ _. weight self.new + 1 ≤ weight self.old) }
    {
        let [head, rest @ ..] = self.cursor.rest else {
            return Err(self.cursor.out_of_place());
        };
        match start(*head) {
            Start::Parenthesis => {
                let Some(inside) = depth.inside() else {
                    return Err(self.cursor.fail(Fault::NestedTooDeep));
                };
                self.cursor.rest = rest;
                self.pair(inside)?;
                self.cursor.byte(b')')?;
                Ok(Source::Temporary(depth.waiting))
            }
            Start::Variable => Ok(Source::Named(Atom::Variable(self.cursor.letter(b'a')?))),
            Start::Pointer => {
                self.cursor.rest = rest;
                Ok(Source::Named(Atom::Pointed(self.cursor.letter(b'a')?)))
            }
            Start::Letter => Ok(Source::Named(Atom::Letter(self.cursor.letter(b'A')?))),
            Start::Digit => Ok(Source::Named(Atom::Constant(self.cursor.constant()?))),
            Start::Other => Err(self.cursor.out_of_place()),
        }
    }

    // A pair: an operand, a sign and an operand.
    #[cycle(operand_pair_second)]
    fn pair(&mut self, depth: Depth) -> Result<(), Failure>
        requires nested { Nested depth.room depth.waiting }
        requires spare { Spare 78 self.old }
        ensures reads { PairRead (pair_at depth.room self.old.cursor.rest.now) depth.waiting self.old result self.new }
        ensures spent { IfOk result (λ _. weight self.new ≤ weight self.old + 1) }
    {
        let left = self.operand(depth)?;
        self.second(left, depth)
    }

    // What follows the left operand of a pair: a sign and the right operand. The pair's own operation comes last.
    #[cycle(operand_pair_second)]
    pub(crate) fn second(&mut self, left: Source, depth: Depth) -> Result<(), Failure>
        requires nested { Nested depth.room depth.waiting }
        requires spare { Spare 77 self.old }
        ensures reads { SecondRead (second_at depth.room self.old.cursor.rest.now) left depth.waiting self.old result self.new }
        ensures spent { IfOk result (λ _. weight self.new ≤ weight self.old + 2) }
    {
        let sign = self.cursor.sign()?;
        let right = self.operand(depth.after(left))?;
        self.operations.push(Operation {
            left,
            sign,
            right,
            result: depth.waiting,
        });
        Ok(())
    }
}
