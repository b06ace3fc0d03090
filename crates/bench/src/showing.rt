ghost use Rattle.std.specs.Prelude.{Some};
ghost use Rattle.bench.specs.Benches.{by_number, denial_number};
ghost use Rattle.bench.specs.Showing.{answer_text, call_text, denial_text, reply_text};

use crate::call::{Call, Denial, Reply};
use std::fmt;

impl fmt::Display for Call {
    ghost output = { λ call. Some (call_text call) };

    fn fmt<W: fmt::Write>(&self, f: &mut fmt::Formatter<W>) -> fmt::Result {
        match *self {
            Call::Load(address) => write!(f, "load {address}"),
            Call::Store(address, number) => write!(f, "store {address} {number}"),
            Call::First => write!(f, "first"),
            Call::Drop => write!(f, "drop"),
            Call::Add(number) => write!(f, "add {number}"),
            Call::Count => write!(f, "count"),
            Call::Code(place) => write!(f, "code {place}"),
            Call::Clear => write!(f, "clear"),
            Call::Print(code) => write!(f, "print {code}"),
        }
    }
}

impl fmt::Display for Reply {
    ghost output = { λ reply. Some (reply_text reply) };

    fn fmt<W: fmt::Write>(&self, f: &mut fmt::Formatter<W>) -> fmt::Result {
        match *self {
            Reply::Done => write!(f, "ok"),
            Reply::Number(number) => write!(f, "{number}"),
            Reply::Nothing => write!(f, "none"),
        }
    }
}

impl fmt::Display for Denial {
    ghost output = { λ denial. Some (denial_text (denial_number denial)) };

    fn fmt<W: fmt::Write>(&self, f: &mut fmt::Formatter<W>) -> fmt::Result {
        write!(f, "refused,{}", u8::from(*self))
    }
}

// What a device answered, as it is printed.
#[derive(Clone, Copy)]
pub struct Shown(pub Result<Reply, Denial>);

impl fmt::Display for Shown {
    ghost output = { λ shown. Some (answer_text (by_number shown.0)) };

    fn fmt<W: fmt::Write>(&self, f: &mut fmt::Formatter<W>) -> fmt::Result {
        match self.0 {
            Ok(reply) => write!(f, "{reply}"),
            Err(denial) => write!(f, "{denial}"),
        }
    }
}
