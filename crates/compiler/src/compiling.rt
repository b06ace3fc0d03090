ghost use Rattle.std.specs.Prelude.{◌≡◌, length};
ghost use Rattle.rules.specs.Compiled.{compiled, told, answered, buffered};
ghost use Rattle.compiler.specs.Meant.{Meant};
ghost use Rattle.compiler.specs.Planned.{Planned};

use crate::constants::Constants;
use crate::inventory::{check_letters, take_constants};
use crate::survey::Survey;
use crate::tape_writer::put_tape;
use rules::limits::TEXT_LIMIT;
use rules::refusal::TextRefusal;

// The constants of an accepted text, and the length of its tape.
#[derive(Drop)]
struct Plan {
    constants: Constants,
    length: usize,
}

// Judges a text: every refusal but that of a short buffer, in their order.
fn plan_of(text: &[u8]) -> Result<Plan, TextRefusal>
    ensures { Planned text.now result }
{
    if text.len() > TEXT_LIMIT {
        return Err(TextRefusal::TextTooLong);
    }
    let found = Survey::of(text)?;
    check_letters(text, &found.groups)?;
    let constants = take_constants(text)?;
    if let Some(line) = found.over {
        return Err(TextRefusal::TooManyInstructions { line });
    }
    let length = 2 * constants.as_slice().len() + found.heads + found.instructions + 1;
    Ok(Plan { constants, length })
}

// Compiles a text to its tape, at the front of the buffer; how many words that is. On a refusal the buffer is untouched.
pub fn compile(text: &[u8], tape: &mut [u64]) -> Result<usize, TextRefusal>
    ensures answer { told result ≡ answered (compiled text.now) (length tape.old) }
    ensures buffer { tape.new ≡ buffered (compiled text.now) tape.old }
    ensures meant { Meant text.now tape.new result }
{
    let plan = plan_of(text)?;
    if tape.len() < plan.length {
        return Err(TextRefusal::TapeTooShort);
    }
    Ok(put_tape(text, &plan.constants, tape))
}
