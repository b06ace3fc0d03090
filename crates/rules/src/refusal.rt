// Where a text is refused: lines and places count from 1, and place 0 names the line as a whole.
#[derive(Clone, Copy, Debug, PartialEq, Eq)]
pub struct Position {
    pub line: usize,
    pub place: usize,
}

// Why the reading of one line fails; each case is worth its number.
#[derive(Clone, Copy, Debug, PartialEq, Eq)]
pub enum Fault {
    LineEndMissing = 2,
    ByteOutOfPlace = 3,
    BadConstant = 4,
    NestedTooDeep = 5,
}

// Why a text is refused, and where.
#[derive(Clone, Copy, Debug, PartialEq, Eq)]
pub enum TextRefusal {
    TextTooLong,
    Unreadable(Fault, Position),
    GroupOutOfPlace(Position),
    LetterWithoutGroup(Position),
    TooManyConstants(Position),
    TooManyInstructions { line: usize },
    TapeTooShort,
}

// A refusal as it is shown to a packer, so by its number, and where; line or place is 0 where none is named, as it is printed.
#[derive(Clone, Copy, Debug, PartialEq, Eq)]
pub struct Report {
    pub number: u8,
    pub at: Position,
}

// Why a call of the unit, or one of its devices, refuses; each case is worth its number.
#[derive(Clone, Copy, Debug, PartialEq, Eq)]
pub enum Refusal {
    OutOfRange = 15,
    NoCode = 18,
    QueueFull = 26,
    NoneWaiting = 27,
}

// Why a label stops; each case is worth its number. The label line refuses a code for these.
#[derive(Clone, Copy, Debug, PartialEq, Eq)]
pub enum Cause {
    LabelFull = 35,
    CodeTooLarge = 36,
}
