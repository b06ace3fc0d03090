ghost use Rattle.std.specs.Prelude.{◌≡◌};
ghost use Rattle.rules.specs.declared.operation.Source.TheVariants.{Temporary};

use crate::formula::{Atom, Target};
use crate::ranged::Letter;
use crate::sign::Sign;

// Where an operation finds an operand: what an atom names, or a temporary that holds an earlier result.
#[derive(Clone, Copy, Debug, PartialEq, Eq)]
pub enum Source {
    Named(Atom),
    Temporary(u8),
}

// One operation of a pair. `result` is the temporary that takes its result, unless it is the formula's last operation.
#[derive(Clone, Copy, Debug, Default, PartialEq, Eq)]
pub struct Operation {
    pub left: Source,
    pub sign: Sign,
    pub right: Source,
    pub result: u8,
}

// What stands in the unused places of a row of operations.
impl Default for Source {
    ghost is_default = { λ s. s ≡ Temporary 0 };

    fn default() -> Source {
        Source::Temporary(0)
    }
}

// What kind of side a line has; a pair's operations stand in a row of their own.
#[derive(Clone, Copy, Debug, PartialEq, Eq)]
pub enum SideKind {
    Reading,
    Single(Atom),
    Pair,
}

// A line without its operations.
#[derive(Clone, Copy, Debug, PartialEq, Eq)]
pub struct LineParts {
    pub group: Letter,
    pub side: SideKind,
    pub target: Target,
}
