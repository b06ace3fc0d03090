ghost use Rattle.std.specs.Prelude.{◌≡◌, ◌≤◌, length, position};
ghost use Rattle.rules.specs.Texts.{cut};
ghost use Rattle.rules.specs.Mentions.{program_mentions};
ghost use Rattle.compiler.specs.Lines.{read_lines, Readable};
ghost use Rattle.compiler.specs.Mentioned.{lacks, Lettered, TakenAll};

use crate::constants::Constants;
use crate::groups::Groups;
use crate::lines::{Lines, SIDE_PLACE, side_of};
use rules::refusal::{Position, TextRefusal};

// How many bytes stand before the first letter without group.
fn loose_letter(side: &[u8], groups: &Groups) -> Option<usize>
    ensures { result ≡ position (lacks groups.now) side.now }
{
    side.iter().position(|byte| groups.lacks(*byte))
}

// Sees that each letter of a text has a group. The text's lines can be read.
pub(crate) fn check_letters(text: &[u8], groups: &Groups) -> Result<(), TextRefusal>
    requires { Readable (cut text.now) }
    ensures { Lettered (program_mentions 1 (read_lines (cut text.now))) groups.now result }
{
    for (line, bytes) in (1..).zip(Lines::of(text)) {
        if let Some(i) = loose_letter(side_of(bytes), groups) {
            let place = SIDE_PLACE + i;
            return Err(TextRefusal::LetterWithoutGroup(Position { line, place }));
        }
    }
    Ok(())
}

// The constants of a text whose lines can be read.
pub(crate) fn take_constants(text: &[u8]) -> Result<Constants, TextRefusal>
    requires { Readable (cut text.now) }
    ensures { TakenAll (program_mentions 1 (read_lines (cut text.now))) result }
{
    let mut constants = Constants::new();
    for (line, bytes) in (1..).zip(Lines::of(text)) {
        constants.take_side(side_of(bytes), line)?;
    }
    Ok(constants)
}
