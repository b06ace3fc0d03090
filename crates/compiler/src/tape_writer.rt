ghost use Rattle.std.specs.Prelude.{◌≡◌, ◌+◌, ◌<◌, ◌≤◌, ◌∷◌, [], None, length};
ghost use Rattle.rules.specs.Texts.{cut};
ghost use Rattle.rules.specs.Words.{operation_words, head_if, constant_words, code_words, tape_of};
ghost use Rattle.compiler.specs.Held.{table};
ghost use Rattle.compiler.specs.Lines.{read_lines};
ghost use Rattle.compiler.specs.Rewritten.{read_words};
ghost use Rattle.compiler.specs.Put.{Room, Wrote, Stands};

use crate::constants::Constants;
use crate::lines::Lines;
use crate::words::{Field, constant_word, head_word, operation_word, transfer_word};
use reader::line::{ReadLine, Side, read_line};
use rules::cells::READING_ORGAN;
use rules::operation::Operation;
use rules::ranged::Letter;
use rules::tape::END_WORD;

// The words of a tape, put one behind the other at the front of a buffer. The buffer is lent, so a count of
// its words is kept beside it. The constants of its text are known.
#[derive(Drop)]
pub(crate) struct TapeWriter<'t> {
    constants: &'t Constants,
    buffer: &'t mut [u64],
    count: usize,
}

impl<'t> TapeWriter<'t> {
    fn new(constants: &'t Constants, buffer: &'t mut [u64]) -> TapeWriter<'t>
        ensures same_reference { result.buffer.ghost_name ≡ buffer.entry.ghost_name }
        ensures constants { result.constants ≡ constants.entry }
        ensures buffer { result.buffer.now ≡ buffer.old }
        ensures count { result.count ≡ 0 }
    {
        TapeWriter {
            constants,
            buffer,
            count: 0,
        }
    }

    fn put(&mut self, word: u64)
        requires { Room self.old (word ∷ []) }
        ensures { Wrote self.old (word ∷ []) self.new }
    {
        self.buffer[self.count] = word;
        self.count += 1;
    }

    // Puts each constant's word and number.
    fn put_constants(&mut self)
        requires { Room self.old (constant_words 0 (table self.old.constants.now)) }
        ensures { Wrote self.old (constant_words 0 (table self.old.constants.now)) self.new }
    {
        let held = self.constants.as_slice();
        for (place, number) in held.iter().enumerate() {
            self.put(constant_word(Field::constant(place)));
            self.put(*number);
        }
    }

    // Puts the words of a pair's operations: the last one's result goes to the target, any other's to its temporary.
    fn put_operations(&mut self, operations: &[Operation], target: Field)
        requires { Room self.old (operation_words (table self.old.constants.now) target operations.now) }
        ensures { Wrote self.old (operation_words (table self.old.constants.now) target operations.now) self.new }
    {
        let Some((last, others)) = operations.split_last() else {
            return;
        };
        for operation in others {
            let temporary = Field::temporary(operation.result);
            self.put(operation_word(*operation, temporary, self.constants));
        }
        self.put(operation_word(*last, target, self.constants));
    }

    // Puts a group's head, where the line above is none of the group.
    fn put_head(&mut self, group: Letter, above: Option<Letter>)
        requires { Room self.old (head_if above group) }
        ensures { Wrote self.old (head_if above group) self.new }
    {
        if above != Some(group) {
            self.put(head_word(group));
        }
    }

    // Puts a line's words.
    fn put_line(&mut self, read: &ReadLine)
        requires { Room self.old (read_words (table self.old.constants.now) read.now) }
        ensures { Wrote self.old (read_words (table self.old.constants.now) read.now) self.new }
    {
        let target = Field::target(read.target);
        match &read.side {
            Side::Reading => self.put(transfer_word(Field::of(READING_ORGAN), target)),
            Side::Single(atom) => {
                let atom = Field::atom(*atom, self.constants);
                self.put(transfer_word(atom, target));
            }
            Side::Pair(operations) => self.put_operations(operations.as_slice(), target),
        }
    }

    // Reads the lines of a text again and puts their words.
    fn put_lines(&mut self, text: &[u8])
        requires { Room self.old (code_words (table self.old.constants.now) None (read_lines (cut text.now))) }
        ensures { Wrote self.old (code_words (table self.old.constants.now) None (read_lines (cut text.now))) self.new }
    {
        let mut above = None;
        for bytes in Lines::of(text) {
            if let Ok(read) = read_line(bytes) {
                self.put_head(read.group, above);
                self.put_line(&read);
                above = Some(read.group);
            }
        }
    }
}

// Writes the tape of a text whose constants are known; how many words that is.
pub(crate) fn put_tape(text: &[u8], constants: &Constants, tape: &mut [u64]) -> usize
    requires { length (tape_of (table constants.now) (read_lines (cut text.now))) ≤ length tape.old }
    ensures { Stands tape.old (tape_of (table constants.now) (read_lines (cut text.now))) tape.new result }
{
    let mut writer = TapeWriter::new(constants, tape);
    writer.put_constants();
    writer.put_lines(text);
    writer.put(END_WORD);
    writer.count
}
