// Parentheses too deep: refusal 5. The comment at a case says why; `stdout` says what is due.
use crate::case::{Case, Part, ROOM};

pub(crate) static CASES: &[Case] = &[
    // after 2 bytes the 17th
    Case {
        name: "17 parentheses",
        parts: &[Part::Plain("A,(((((((((((((((((a\n")],
        room: ROOM,
    },
    // at its own place, whatever follows
    Case {
        name: "17 parentheses and nothing more",
        parts: &[Part::Plain("A,(((((((((((((((((\n")],
        room: ROOM,
    },
    // the line end begins no operand
    Case {
        name: "16 parentheses and nothing more",
        parts: &[Part::Plain("A,((((((((((((((((\n")],
        room: ROOM,
    },
    // the 17th, not the last
    Case {
        name: "20 parentheses",
        parts: &[Part::Plain("A,((((((((((((((((((((a\n")],
        room: ROOM,
    },
    // after 4 bytes the 17th
    Case {
        name: "17 parentheses to the right",
        parts: &[Part::Plain("A,a+(((((((((((((((((a\n")],
        room: ROOM,
    },
    // after 8 bytes; the closed one does not count
    Case {
        name: "17 parentheses after closed ones",
        parts: &[Part::Plain("A,(a+b)*(((((((((((((((((a\n")],
        room: ROOM,
    },
    // 17 + 16 + 4 + 42 bytes with 16 open, then the 17th
    Case {
        name: "17th parenthesis at place 80",
        parts: &[Part::Plain(
            "A,11111111111111+(22222222222222+(33+(b+(b+(b+(b+(b+(b+(b+(b+(b+(b+(b+(b+(b+(b+(\n",
        )],
        room: ROOM,
    },
    // line 2
    Case {
        name: "17 parentheses on the second line",
        parts: &[Part::Plain("A,a,b\nA,(((((((((((((((((\n")],
        room: ROOM,
    },
    // the first place counts
    Case {
        name: "17 parentheses, then a bad constant",
        parts: &[Part::Plain("A,(((((((((((((((((01\n")],
        room: ROOM,
    },
];
