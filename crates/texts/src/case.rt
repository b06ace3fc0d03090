// How a text of the table is made, and the memory that is lent for its tape.
use std::alloc::{AllocError, Global};

// Room for any tape, and some words beyond it.
pub const ROOM: usize = 500;

// A part of a text.
#[derive(Clone, Copy, Debug, PartialEq, Eq)]
pub enum Part {
    Plain(&'static str),
    // the same text so many times
    Repeated(&'static str, usize),
    // `before`, a number and `after`, for each number from `first` to `last`
    Numbered {
        before: &'static str,
        first: u64,
        last: u64,
        after: &'static str,
    },
}

// A text of the table.
#[derive(Clone, Copy, Debug, PartialEq, Eq)]
pub struct Case {
    pub name: &'static str,
    pub parts: &'static [Part],
    // the words of the buffer for the tape
    pub room: usize,
}

impl Part {
    fn write(&self, text: &mut String) -> Result<(), AllocError> {
        match self {
            Part::Plain(piece) => text.push_str(piece),
            Part::Repeated(piece, times) => {
                for _ in 0..*times {
                    text.push_str(piece)?;
                }
                Ok(())
            }
            Part::Numbered {
                before,
                first,
                last,
                after,
            } => {
                for number in *first..=*last {
                    write!(text, "{before}{number}{after}")?;
                }
                Ok(())
            }
        }
    }
}

impl Case {
    pub(crate) fn text(&self, heap: Global) -> Result<String, AllocError> {
        let mut text = String::new(heap);
        for part in self.parts {
            part.write(&mut text)?;
        }
        Ok(text)
    }
}
