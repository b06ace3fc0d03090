ghost use Rattle.std.specs.Prelude.{◌≡◌, ◌^◌, ◌<◌, ◌≤◌, ◌↔◌, [], ◌∷◌, ◌++◌, length, drop, IsOk, IsSome, OnOk, OnErr};
ghost use Rattle.std.specs.List.{slice_get};
ghost use Rattle.digits.specs.Text.{line_of, Below};

use crate::text::{behind_first, first_comma, first_number, put_digits};
use arrayvec::ArrayVec;
use itoa::Buffer;
use std::marker::Model;

// A row of numbers in decimal digits, each followed by a comma, in at most N bytes. A contract sees the row.
#[derive(Drop)]
pub struct NumberLine<const N: usize> {
    bytes: ArrayVec<u8, N>,
    // how many numbers stand there: each push on a device asks, and to count the commas would be no plainer
    count: usize,
}

// The digits and the comma of a number find no room.
#[derive(Clone, Copy, Debug, PartialEq, Eq)]
pub struct NoRoom;

impl<const N: usize> Model for NumberLine<N> {
    ghost use Rattle.std.specs.Prelude.{ℕ, List};
    ghost use Rattle.digits.specs.Text.{numbers_in, Sound};

    ghost Value = { List ℕ };

    ghost view = { λ line. numbers_in line.bytes.items };

    ghost invariant = { λ line. Sound line.bytes.items line.count };
}

impl<const N: usize> NumberLine<N> {
    pub fn new() -> Self
        ensures { result ≡ [] }
    {
        NumberLine {
            bytes: ArrayVec::new(),
            count: 0,
        }
    }

    // How many numbers stand there.
    pub fn count(&self) -> usize
        ensures count { result ≡ length self.now }
        ensures fits { length (line_of self.now) ≤ N }
        ensures below { Below (2 ^ 64) self.now }
    {
        // the bytes say what the row is at most; the field by its name, so that an edit of it stands alone
        let _bytes = self.as_bytes();
        let NumberLine { count, .. } = self;
        *count
    }

    // The digits and commas as they stand.
    pub fn as_bytes(&self) -> &[u8]
        ensures bytes { result.now ≡ line_of self.now }
        ensures fits { length result.now ≤ N }
        ensures below { Below (2 ^ 64) self.now }
    {
        self.bytes.as_slice()
    }

    pub fn get(&self, index: usize) -> Option<u64>
        ensures { result ≡ slice_get self.now index }
    {
        // not by `split` and `nth`, which took half as long again
        let mut rest = self.as_bytes();
        for _ in 0..index {
            rest = behind_first(rest)?;
        }
        first_number(rest)
    }

    // Puts a number behind the others, where its digits and comma find room.
    pub fn push(&mut self, number: u64) -> Result<(), NoRoom>
        ensures room { IsOk result ↔ (length (line_of (self.old ++ (number ∷ []))) ≤ N) }
        ensures held { OnOk result (self.new ≡ self.old ++ (number ∷ [])) }
        ensures kept { OnErr result (self.new ≡ self.old) }
    {
        let mut buffer = Buffer::new();
        let digits = buffer.format(number).as_bytes();
        if digits.len() >= self.bytes.remaining_capacity() {
            return Err(NoRoom);
        }
        put_digits(&mut self.bytes, digits);
        self.bytes.push(b',');
        self.count += 1;
        Ok(())
    }

    // Removes the first number, if there is one.
    pub fn drop_first(&mut self)
        ensures { self.new ≡ drop 1 self.old }
    {
        self.remove_first();
    }

    // Removes the first number, and says whether there was one. The bytes behind it move to the front, so that its room serves
    // again.
    pub fn remove_first(&mut self) -> Option<()>
        ensures there { IsSome result ↔ (0 < length self.old) }
        ensures after { self.new ≡ drop 1 self.old }
    {
        let comma = first_comma(&self.bytes)?;
        // no `drain`, which carries what it frees through a buffer on the stack
        let rest = comma + 1;
        let kept = self.bytes.len() - rest;
        self.bytes.as_mut_slice().copy_within(rest.., 0);
        self.bytes.truncate(kept);
        self.count -= 1;
        Some(())
    }

    pub fn clear(&mut self)
        ensures { self.new ≡ [] }
    {
        self.bytes.clear();
        self.count = 0;
    }
}
