use rules::refusal::{Cause, Refusal};

// What can be asked of the three devices: of the store, the reading queue and the label line.
#[derive(Clone, Copy, Debug, PartialEq, Eq)]
pub enum Call {
    Load(usize),
    Store(usize, u64),
    First,
    Drop,
    Add(u64),
    Count,
    Code(usize),
    Clear,
    Print(u64),
}

// What a device answers: that it was done, a number, or that nothing waits.
#[derive(Clone, Copy, Debug, PartialEq, Eq)]
pub enum Reply {
    Done,
    Number(u64),
    Nothing,
}

// Why a device answers nothing: it refuses the call, or the label stops.
#[derive(Clone, Copy, Debug, PartialEq, Eq)]
pub enum Denial {
    Refused(Refusal),
    Stopped(Cause),
}

impl From<Denial> for u8 {
    ghost use Rattle.std.specs.Prelude.{◌≡◌};
    ghost use Rattle.bench.specs.Benches.{denial_number};

    ghost from_gives = { λ denial number. number ≡ denial_number denial };

    fn from(denial: Denial) -> u8 {
        match denial {
            Denial::Refused(refusal) => u8::from(refusal),
            Denial::Stopped(cause) => u8::from(cause),
        }
    }
}

impl From<Refusal> for Denial {
    ghost use Rattle.std.specs.Prelude.{◌≡◌};
    ghost use Rattle.bench.specs.declared.call.Denial.TheVariants.{Refused};

    ghost from_gives = { λ refusal denial. denial ≡ Refused refusal };

    fn from(refusal: Refusal) -> Denial {
        Denial::Refused(refusal)
    }
}

impl From<Cause> for Denial {
    ghost use Rattle.std.specs.Prelude.{◌≡◌};
    ghost use Rattle.bench.specs.declared.call.Denial.TheVariants.{Stopped};

    ghost from_gives = { λ cause denial. denial ≡ Stopped cause };

    fn from(cause: Cause) -> Denial {
        Denial::Stopped(cause)
    }
}
