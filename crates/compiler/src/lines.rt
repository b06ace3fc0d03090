ghost use Rattle.std.specs.Prelude.{◌≡◌, ◌≤◌, length, drop};
ghost use Rattle.std.specs.List.{prefix_len};
ghost use Rattle.compiler.specs.Lines.{in_line};

const LINE_END: u8 = b'\n';

// The place of the first byte of a line's side, which stands behind the group's letter and a comma.
pub(crate) const SIDE_PLACE: usize = 3;

// The lines of a text without their line ends, one after another. Bytes that no line end follows are no line.
#[derive(Drop)]
pub(crate) struct Lines<'t> {
    rest: &'t [u8],
}

impl<'t> Lines<'t> {
    pub(crate) fn of(text: &'t [u8]) -> Lines<'t>
        ensures { result.rest.now ≡ text.now }
    {
        Lines { rest: text }
    }

    // What was not given yet.
    pub(crate) fn rest(&self) -> &'t [u8]
        ensures { result.now ≡ self.now.rest.now }
    {
        self.rest
    }
}

impl<'t> Iterator for Lines<'t> {
    ghost use Rattle.std.specs.Prelude.{length};
    ghost use Rattle.std.specs.Iterator.{at_most};
    ghost use Rattle.compiler.specs.Given.{GivesLine};

    type Item = &'t [u8];

    ghost next_gives = { GivesLine };

    ghost remaining = { λ s. at_most (length s.rest.now) };

    fn next(&mut self) -> Option<&'t [u8]> {
        let (line, after) = self.rest.split_at(line_length(self.rest));
        let (_end, rest) = after.split_first()?;
        self.rest = rest;
        Some(line)
    }
}

// How many bytes stand before the first line end.
fn line_length(text: &[u8]) -> usize
    ensures is { result ≡ prefix_len in_line text.now }
    ensures within { result ≤ length text.now }
{
    text.iter().take_while(|b| **b != LINE_END).count()
}

// What stands behind a line's letter and comma: its side, and the target.
pub(crate) fn side_of(line: &[u8]) -> &[u8]
    ensures { result.now ≡ drop 2 line.now }
{
    match line {
        [_, _, side @ ..] => side,
        _ => &[],
    }
}
