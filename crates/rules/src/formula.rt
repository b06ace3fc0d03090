// What an operand is when it is no pair: variables and group letters by their byte, constants by their number. (With a type of
// letters in it, whose range is an invariant, the check makes no proof of code that keeps operations in a struct.)
#[derive(Clone, Copy, Debug, PartialEq, Eq)]
pub enum Atom {
    Variable(u8),
    Pointed(u8),
    Letter(u8),
    Constant(u64),
}

// Where a line's result goes: a variable, the data cell that a variable points to, the label, or the place register. Variables by
// their byte, for the same reason.
#[derive(Clone, Copy, Debug, PartialEq, Eq)]
pub enum Target {
    Variable(u8),
    Pointed(u8),
    Label,
    Place,
}

// What a byte can begin.
#[derive(Clone, Copy, Debug, PartialEq, Eq)]
pub enum Start {
    Parenthesis,
    Variable,
    Pointer,
    Letter,
    Digit,
    Other,
}
