//! A table of formula texts, good and refused: each is compiled, and what came of it is written, one line a text.
#![tactic(auto)]

mod bytes;
mod case;
mod constants;
mod good;
mod groups;
mod lengths;
mod limits;
mod mentions;
mod parentheses;

use crate::case::Case;
use compiler::compile;
use rules::refusal::Report;
use std::alloc::{AllocError, Global};

// What the buffer holds before a text is compiled. No text of the table makes this word.
const UNTOUCHED: u64 = 77_777_777_777_777;

// A tape of so many words is written out.
const SHORT: usize = 24;

// The words of a tape, or only their number where they are many.
fn shown_tape(heap: Global, tape: &[u64]) -> Result<String, AllocError> {
    let length = tape.len();
    let mut line = format!(in heap; "tape,{length}")?;
    if length <= SHORT {
        for word in tape {
            write!(line, " {word:014}")?;
        }
    }
    Ok(line)
}

// What a text compiles to, and `touched` where the buffer holds anything else than the tape and what was there.
fn outcome(heap: Global, text: &[u8], room: usize) -> Result<String, AllocError> {
    let mut buffer = vec![in heap; UNTOUCHED; room]?;
    let (mut line, rest) = match compile(text, &mut buffer) {
        Ok(length) => {
            let (tape, beyond) = buffer.split_at(length.min(room));
            (shown_tape(heap, tape)?, beyond)
        }
        Err(refusal) => (
            format!(in heap; "{}", Report::from(refusal))?,
            buffer.as_slice(),
        ),
    };
    if rest.iter().any(|word| *word != UNTOUCHED) {
        line.push_str(" touched")?;
    }
    Ok(line)
}

fn run_all(rt: &HostRuntime, cases: &[Case]) -> anyhow::Result<()> {
    let heap = rt.alloc();
    for case in cases {
        let name = case.name;
        let text = case.text(heap)?;
        let line = outcome(heap, text.as_bytes(), case.room)?;
        println!(rt; "{name}: {line}")?;
    }
    Ok(())
}

fn main(rt: HostRuntime) -> anyhow::Result<()> {
    let tables = [
        good::CASES,
        lengths::CASES,
        bytes::CASES,
        constants::CASES,
        parentheses::CASES,
        groups::CASES,
        mentions::CASES,
        limits::CASES,
    ];
    for cases in tables {
        run_all(&rt, cases)?;
    }
    Ok(())
}
