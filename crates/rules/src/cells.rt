// Where things stand among the thousand cells of a store: each range by its first cell. Addresses 0 and 1 are no cells but
// the place register, the reading organ as an operand and the label as a result; POINTED is added where a variable points.
pub const PLACE_REGISTER: u64 = 0;

pub const READING_ORGAN: u64 = 1;

pub const LABEL: u64 = 1;

pub const VARIABLES: u64 = 2;

pub const LETTERS: u64 = 28;

pub const CONSTANTS: u64 = 54;

pub const TEMPORARIES: u64 = 500;

pub const POINTED: u64 = 1000;
