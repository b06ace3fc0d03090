//! Reads a formula text on standard input and lists the words of its tape, or says why the text is refused.
#![tactic(auto)]

ghost use Rattle.std.specs.Prelude.{◌≡◌, ◌-◌, ◌++◌, take, is_ok, IfOk, if◌then◌else◌, vec_len, string_bytes};
ghost use Rattle.rules.specs.Compiled.{compiled};
ghost use Rattle.tapelist.specs.Listed.{Listed, refusal_line};

use compiler::compile;
use rules::limits::{LONGEST_TAPE, TEXT_LIMIT};
use rules::refusal::{Report, TextRefusal};
use std::alloc::{AllocError, Global};
use std::io;
use std::io::Read;

// One byte more than a text may have: enough to see that a text is too long.
const MOST_BYTES: usize = TEXT_LIMIT + 1;

// How much is read at once.
const CHUNK: usize = 4_096;

// Adds a chunk of the input to the text, as far as the text stays within so many bytes.
fn keep(text: &mut Vec<u8>, chunk: &[u8], most: usize) -> Result<(), AllocError>
    ensures { text.new.items ≡ (if is_ok result then text.old.items ++ take (most - vec_len text.old) chunk.now else text.old.items) }
{
    let room = most.saturating_sub(text.len());
    if room < chunk.len() {
        return text.extend_from_slice(&chunk[..room]);
    }
    text.extend_from_slice(chunk)
}

// Reads once more, keeps what the text has room for, and says how many bytes were read: 0 at the end of the input. By hand and
// not by `read_to_end`, so that `keep` can promise what is kept.
fn read_more(input: &mut impl Read, chunk: &mut [u8], text: &mut Vec<u8>) -> io::Result<usize> {
    let count = input.read(chunk)?;
    keep(text, &chunk[..count], MOST_BYTES)?;
    Ok(count)
}

// The input, cut off where it is too long for a text anyway.
fn read_text(heap: Global, input: &mut impl Read) -> io::Result<Vec<u8>> {
    let mut text = Vec::new(heap);
    let mut chunk = vec![in heap; 0; CHUNK]?;
    // each turn but the last keeps a byte at least
    for _ in 0..MOST_BYTES {
        let count = read_more(input, &mut chunk, &mut text)?;
        if count == 0 || text.len() >= MOST_BYTES {
            break;
        }
    }
    Ok(text)
}

// The tape of a text, or why it is refused; a short buffer is no reason, since no tape is longer than the one made here.
fn tape_of(heap: Global, text: &[u8]) -> Result<Result<Vec<u64>, TextRefusal>, AllocError>
    ensures { IfOk result (Listed (compiled text.now)) }
{
    let mut tape = vec![in heap; 0; LONGEST_TAPE]?;
    match compile(text, &mut tape) {
        Ok(length) => {
            tape.truncate(length);
            Ok(Ok(tape))
        }
        Err(refusal) => Ok(Err(refusal)),
    }
}

// A line for each word: its position from 1 and its fourteen digits.
fn listing(heap: Global, tape: &[u64]) -> Result<String, AllocError> {
    let mut lines = String::new(heap);
    for (position, word) in (1..=tape.len()).zip(tape) {
        writeln!(lines, "{position},{word:014}")?;
    }
    Ok(lines)
}

// One line for a refusal.
fn refused(heap: Global, report: Report) -> Result<String, AllocError>
    ensures { IfOk result (λ s. string_bytes s ≡ refusal_line report) }
{
    format!(in heap; "{report}\n")
}

fn run(rt: &HostRuntime) -> anyhow::Result<()> {
    let heap = rt.alloc();
    let text = read_text(heap, &mut rt.stdin())?;
    let answer = match tape_of(heap, &text)? {
        Ok(tape) => listing(heap, &tape)?,
        Err(refusal) => refused(heap, Report::from(refusal))?,
    };
    rt.print(answer.as_str())?;
    Ok(())
}

fn main(rt: HostRuntime) -> anyhow::Result<()> {
    run(&rt)
}
