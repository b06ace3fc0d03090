// Bad constants: refusal 4. The comment at a case says why; `stdout` says what is due.
use crate::case::{Case, Part, ROOM};

pub(crate) static CASES: &[Case] = &[
    // its first digit
    Case {
        name: "needless zero",
        parts: &[Part::Plain("A,01,b\n")],
        room: ROOM,
    },
    // its first digit
    Case {
        name: "two zeros",
        parts: &[Part::Plain("A,00,b\n")],
        room: ROOM,
    },
    // one more than 14
    Case {
        name: "15 digits",
        parts: &[Part::Plain("A,100000000000000,b\n")],
        room: ROOM,
    },
    // judged before what follows
    Case {
        name: "15 digits and nothing more",
        parts: &[Part::Plain("A,123456789012345\n")],
        room: ROOM,
    },
    // 15 digits with a leading zero: one refusal
    Case {
        name: "14 digits and a zero before",
        parts: &[Part::Plain("A,012345678901234,b\n")],
        room: ROOM,
    },
    // A , a + ( b * are 7 bytes
    Case {
        name: "bad constant inside",
        parts: &[Part::Plain("A,a+(b*007),c\n")],
        room: ROOM,
    },
    // the first place counts
    Case {
        name: "bad constant, then a bad byte",
        parts: &[Part::Plain("A,01+,b\n")],
        room: ROOM,
    },
    // the first place counts
    Case {
        name: "bad byte, then a bad constant",
        parts: &[Part::Plain("A,a++01,b\n")],
        room: ROOM,
    },
    // 67 bytes, 11 parentheses (13 are open), two zeros: 80 bytes
    Case {
        name: "bad constant at place 79",
        parts: &[Part::Plain(
            "A,(11111111111111+22222222222222)*((33333333333333-44444444444444)+(((((((((((00\n",
        )],
        room: ROOM,
    },
    // line 3
    Case {
        name: "bad constant on the last line",
        parts: &[Part::Plain("A,a,b\nA,a,b\nA,00,#\n")],
        room: ROOM,
    },
];
