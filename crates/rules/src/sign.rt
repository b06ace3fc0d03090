// The sign between the two operands of a pair, numbered by its row in the table of codes.
#[derive(Clone, Copy, Debug, Default, PartialEq, Eq)]
pub enum Sign {
    #[default]
    Sum = 0,
    Product = 1,
    Difference = 2,
    Quotient = 3,
    Distance = 5,
    Remainder = 6,
    Greater = 7,
    Smaller = 8,
}

// A sign, and the byte that writes it.
#[derive(Clone, Copy, Debug, PartialEq, Eq)]
pub struct WrittenSign {
    pub sign: Sign,
    pub byte: u8,
}

// One of the nine codes of a word: the sign that stands for it, if one does, its number, and how many operands it works on (of a
// code in a word that is not known from its sign).
#[derive(Clone, Copy, Debug, PartialEq, Eq)]
pub struct CodeRow {
    pub written: Option<WrittenSign>,
    pub code: u8,
    pub arity: u8,
}
