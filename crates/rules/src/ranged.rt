ghost use Rattle.std.specs.Prelude.{◌≡◌, ◌+◌, ◌-◌, ◌<◌, ◌≤◌};
ghost use Rattle.rules.specs.Ranges.{ranged};

use crate::limits::NUMBER_LIMIT;
use std::marker::Model;

// One of COUNT numbers from FIRST on.
#[derive(Clone, Copy, Debug, PartialEq, Eq)]
pub struct Ranged<const FIRST: u64, const COUNT: u64> {
    value: u64,
}

// A number that is not in the range where it was to be.
#[derive(Clone, Copy, Debug, PartialEq, Eq)]
pub struct OutOfRange;

// A number of at most fourteen digits: what a cell holds, and what the scale reads.
pub type Number = Ranged<0, NUMBER_LIMIT>;

// The place of a cell in a store: one of CELL_COUNT, written out since a const argument is not computed from a `usize`.
pub type Address = Ranged<0, 1_000>;

// The letter of a group, by its byte.
pub type Letter = Ranged<65, 26>;

impl<const FIRST: u64, const COUNT: u64> Model for Ranged<FIRST, COUNT> {
    ghost use Rattle.std.specs.Prelude.{ℕ, ◌+◌, ◌<◌, ◌≤◌};

    ghost Value = { ℕ };

    ghost view = { λ r. r.value };

    ghost invariant = { λ r. (FIRST ≤ r.value) × (r.value < FIRST + COUNT) };

    ghost inverse = { λ n. record { value = n } };
}

impl<const FIRST: u64, const COUNT: u64> Ranged<FIRST, COUNT> {
    pub fn get(self) -> u64
        ensures value { result ≡ self.entry }
        ensures from { FIRST ≤ result }
        ensures below { result < FIRST + COUNT }
    {
        self.value
    }

    // How many numbers of the range stand before it.
    pub fn index(self) -> usize
        ensures is { result ≡ self.entry - FIRST }
        ensures few { result < COUNT }
    {
        // 64 bits both, so the cast loses nothing
        (self.get() - FIRST) as usize
    }
}

impl<const FIRST: u64, const COUNT: u64> TryFrom<u64> for Ranged<FIRST, COUNT> {
    type Error = OutOfRange;

    ghost try_from_gives = { λ n r. r ≡ ranged FIRST COUNT n };

    fn try_from(value: u64) -> Result<Self, OutOfRange> {
        if value >= FIRST && value - FIRST < COUNT {
            Ok(Ranged { value })
        } else {
            Err(OutOfRange)
        }
    }
}

impl<const FIRST: u64, const COUNT: u64> TryFrom<usize> for Ranged<FIRST, COUNT> {
    type Error = OutOfRange;

    ghost try_from_gives = { λ n r. r ≡ ranged FIRST COUNT n };

    fn try_from(value: usize) -> Result<Self, OutOfRange> {
        // a cast, since `usize` has no `From` to `u64`
        Ranged::try_from(value as u64)
    }
}
