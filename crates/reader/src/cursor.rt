ghost use Rattle.std.specs.Prelude.{◌≡◌, ◌+◌, ◌<◌, length, IfOk};
ghost use Rattle.rules.specs.declared.refusal.Fault.TheVariants as faults;
ghost use Rattle.rules.specs.Reading.{digit_run, start as start_of, byte_at, constant_at, letter_from, sign_at};
ghost use Rattle.reader.specs.Told.{Reads, ReadsOne};

use crate::failure::Failure;
use crate::numbers::constant;
use rules::formula::Start;
use rules::refusal::Fault;
use rules::sign::Sign;
use rules::table::sign_of;

// What is still to be read of a line.
#[derive(Drop)]
pub(crate) struct Cursor<'a> {
    pub(crate) rest: &'a [u8],
}

// What a byte can begin.
pub(crate) fn start(b: u8) -> Start
    ensures { result ≡ start_of b }
{
    match b {
        b'(' => Start::Parenthesis,
        b'a'..=b'z' => Start::Variable,
        b'@' => Start::Pointer,
        b'A'..=b'Z' => Start::Letter,
        b'0'..=b'9' => Start::Digit,
        _ => Start::Other,
    }
}

impl<'a> Cursor<'a> {
    // A failure at the first of the bytes that are left.
    pub(crate) fn fail(&self, fault: Fault) -> Failure
        ensures fault { result.fault ≡ fault }
        ensures left { result.left ≡ length self.now.rest.now }
    {
        Failure {
            fault,
            left: self.rest.len(),
        }
    }

    // The first of the bytes that are left can't stand there, or none is left where one should stand.
    pub(crate) fn out_of_place(&self) -> Failure
        ensures fault { result.fault ≡ faults.ByteOutOfPlace }
        ensures left { result.left ≡ length self.now.rest.now }
    {
        self.fail(Fault::ByteOutOfPlace)
    }

    // One byte that must stand first.
    pub(crate) fn byte(&mut self, b: u8) -> Result<u8, Failure>
        requires { 0 < b }
        ensures { ReadsOne (byte_at b self.old.rest.now) result self.old.rest.now self.new.rest.now }
    {
        match self.rest {
            [c, rest @ ..] if *c == b => {
                self.rest = rest;
                Ok(b)
            }
            _ => Err(self.out_of_place()),
        }
    }

    // A letter of the alphabet that begins with `first`.
    pub(crate) fn letter(&mut self, first: u8) -> Result<u8, Failure>
        requires { (0 < first) × (first < 200) }
        ensures { ReadsOne (letter_from first self.old.rest.now) result self.old.rest.now self.new.rest.now }
    {
        match self.rest {
            [letter, rest @ ..] if (first..=first + 25).contains(letter) => {
                self.rest = rest;
                Ok(*letter)
            }
            _ => Err(self.out_of_place()),
        }
    }

    // A sign, by the table of codes.
    pub(crate) fn sign(&mut self) -> Result<Sign, Failure>
        ensures { ReadsOne (sign_at self.old.rest.now) result self.old.rest.now self.new.rest.now }
    {
        let [head, rest @ ..] = self.rest else {
            return Err(self.out_of_place());
        };
        let Some(sign) = sign_of(*head) else {
            return Err(self.out_of_place());
        };
        self.rest = rest;
        Ok(sign)
    }

    // The constant that the bytes begin with.
    pub(crate) fn constant(&mut self) -> Result<u64, Failure>
        ensures reads { Reads (constant_at self.old.rest.now) result self.new.rest.now }
        ensures run { IfOk result (λ _. length self.new.rest.now + digit_run self.old.rest.now ≡ length self.old.rest.now) }
    {
        let (number, digits) = constant(self.rest)?;
        self.rest = &self.rest[digits..];
        Ok(number)
    }
}
