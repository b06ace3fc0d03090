ghost use Rattle.std.specs.Prelude.{◌≡◌, ◌<◌, option_copied};
ghost use Rattle.std.specs.List.{find};
ghost use Rattle.rules.specs.Codes.{code_table, sign_of, sign_row, transfer_row, writes};

use crate::sign::{CodeRow, Sign, WrittenSign};

// The nine codes, in the order of their numbers.
pub const CODES: [CodeRow; 9] = [
    CodeRow {
        written: Some(WrittenSign {
            sign: Sign::Sum,
            byte: b'+',
        }),
        code: 1,
        arity: 2,
    },
    CodeRow {
        written: Some(WrittenSign {
            sign: Sign::Product,
            byte: b'*',
        }),
        code: 2,
        arity: 2,
    },
    CodeRow {
        written: Some(WrittenSign {
            sign: Sign::Difference,
            byte: b'-',
        }),
        code: 3,
        arity: 2,
    },
    CodeRow {
        written: Some(WrittenSign {
            sign: Sign::Quotient,
            byte: b':',
        }),
        code: 4,
        arity: 2,
    },
    CodeRow {
        written: None,
        code: 5,
        arity: 1,
    },
    CodeRow {
        written: Some(WrittenSign {
            sign: Sign::Distance,
            byte: b'~',
        }),
        code: 6,
        arity: 2,
    },
    CodeRow {
        written: Some(WrittenSign {
            sign: Sign::Remainder,
            byte: b'%',
        }),
        code: 7,
        arity: 2,
    },
    CodeRow {
        written: Some(WrittenSign {
            sign: Sign::Greater,
            byte: b'>',
        }),
        code: 8,
        arity: 2,
    },
    CodeRow {
        written: Some(WrittenSign {
            sign: Sign::Smaller,
            byte: b'<',
        }),
        code: 9,
        arity: 2,
    },
];

// The table as the definitions have it: computed over all nine rows.
pub fn codes() -> [CodeRow; 9]
    ensures { result ≡ code_table }
{
    CODES
}

// The row whose sign a byte writes.
fn row_of(byte: u8) -> Option<&'static CodeRow>
    ensures { option_copied result ≡ find (writes byte) code_table }
{
    CODES.iter().find(|row| row.is_written_by(byte))
}

// The sign that a byte is.
#[tactic(auto, using(crate::proofs::Signs::sign_found))]
pub fn sign_of(byte: u8) -> Option<Sign>
    ensures { result ≡ sign_of byte code_table }
{
    let row = row_of(byte)?;
    row.written.map(|written| written.sign)
}

// Where the transfer stands in the table: the one row without a sign.
const TRANSFER_ROW: usize = 4;

// The row of the transfer.
pub fn transfer() -> CodeRow
    ensures { result ≡ transfer_row }
{
    CODES[TRANSFER_ROW]
}

impl CodeRow {
    fn is_written_by(&self, byte: u8) -> bool
        ensures { result ≡ writes byte self.now }
    {
        self.written.is_some_and(|written| written.byte == byte)
    }
}

impl Sign {
    // The sign's row in the table, which is the number that the sign is worth.
    pub fn row(self) -> CodeRow
        ensures { result ≡ sign_row self }
    {
        CODES[self as usize]
    }
}
