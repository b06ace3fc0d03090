use bench::call::Call;

// A new store holds zeros; the first and the last cell; the greatest number; and what is refused.
pub static STORE_LIMITS: &[Call] = &[
    Call::Load(0),
    Call::Load(999),
    Call::Store(0, 99_999_999_999_999),
    Call::Store(999, 12_345_678_901_234),
    Call::Load(0),
    Call::Load(1),
    Call::Load(998),
    Call::Load(999),
    Call::Load(1_000),
    Call::Store(1_000, 1),
    Call::Store(0, 100_000_000_000_000),
    Call::Store(1_000, 100_000_000_000_000),
    Call::Load(0),
];

// Some cells of a store that has been filled: each holds a number of its own.
pub static STORE_FILLED: &[Call] = &[Call::Load(0), Call::Load(500), Call::Load(999)];

// A new queue is empty; numbers that are too large are refused.
pub static QUEUE_EMPTY: &[Call] = &[
    Call::First,
    Call::Drop,
    Call::Add(100_000_000_000_000),
    Call::First,
];

// A full queue takes no more, and a number too large is refused for that first.
pub static QUEUE_FULL: &[Call] = &[
    Call::Add(17),
    Call::Add(100_000_000_000_000),
    Call::First,
    Call::Drop,
];

// A freed place serves again; what was put in first comes out first.
pub static QUEUE_AGAIN: &[Call] = &[
    Call::Add(99_999_999_999_999),
    Call::Add(0),
    Call::First,
    Call::Drop,
];

// A new label line is empty; codes that are too large are refused.
pub static LABEL_EMPTY: &[Call] = &[Call::Count, Call::Code(1), Call::Print(256), Call::Count];

// A full label line takes no more, whatever the code is.
pub static LABEL_FULL: &[Call] = &[
    Call::Count,
    Call::Print(65),
    Call::Print(256),
    Call::Code(0),
    Call::Code(1),
    Call::Code(48),
    Call::Code(49),
    Call::Clear,
    Call::Count,
    Call::Code(1),
];

// A label line of two codes.
pub static LABEL_COPIED: &[Call] = &[Call::Count, Call::Code(1), Call::Code(2), Call::Code(3)];
