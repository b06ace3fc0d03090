ghost use Rattle.std.specs.Prelude.{◌≡◌};

use crate::label_line::LabelLine;

// Makes one label line hold the codes of another, which may be of another kind.
pub fn copy<A: LabelLine, B: LabelLine>(from: &A, to: &mut B)
    ensures { B.LabelLine.codes to.new ≡ A.LabelLine.codes from.now }
{
    to.clear();
    // by index, since a line of any kind is no slice: it answers one code at a time
    for index in 0..from.count() {
        if let Some(code) = from.get(index) {
            // so many codes have found room on the other line
            let _ = to.push(code);
        }
    }
}
