// Texts and lines that are too long, and lines without line end: refusals 1 and 2. The comment at a case says why; `stdout` says what is due.
use crate::case::{Case, Part, ROOM};

pub(crate) static CASES: &[Case] = &[
    // 2729 x 6 + 9 bytes: not too long, but the 373rd line has the 373rd instruction
    Case {
        name: "text of 16383 bytes",
        parts: &[Part::Repeated("A,a,b\n", 2729), Part::Plain("A,1000,#\n")],
        room: ROOM,
    },
    // 2729 x 6 + 10 bytes: at the limit
    Case {
        name: "text of 16384 bytes",
        parts: &[Part::Repeated("A,a,b\n", 2729), Part::Plain("A,10000,#\n")],
        room: ROOM,
    },
    // one byte more: judged before anything else
    Case {
        name: "text of 16385 bytes",
        parts: &[Part::Repeated("A,a,b\n", 2729), Part::Plain("A,100000,#\n")],
        room: ROOM,
    },
    // at the limit; a line end is no group letter
    Case {
        name: "text of 16384 line ends",
        parts: &[Part::Repeated("\n", 16384)],
        room: ROOM,
    },
    // above the limit
    Case {
        name: "text of 16385 line ends",
        parts: &[Part::Repeated("\n", 16385)],
        room: ROOM,
    },
    // 1 comes before 2
    Case {
        name: "text of 20000 bytes without line end",
        parts: &[Part::Repeated("a", 20000)],
        room: ROOM,
    },
    // 67 bytes, 11 digits, `),a`
    Case {
        name: "line of 81 bytes",
        parts: &[Part::Plain(
            "A,(11111111111111+22222222222222)*((33333333333333-44444444444444)+55555555555),a\nA,a,#\n",
        )],
        room: ROOM,
    },
    // the line before is good
    Case {
        name: "line of 81 bytes, second",
        parts: &[
            Part::Plain("A,a,b\n"),
            Part::Plain(
                "A,(11111111111111+22222222222222)*((33333333333333-44444444444444)+55555555555),a\nA,a,#\n",
            ),
        ],
        room: ROOM,
    },
    // the lines before are good
    Case {
        name: "line of 81 bytes, last",
        parts: &[
            Part::Plain("A,a,b\n"),
            Part::Plain("A,a,b\n"),
            Part::Plain(
                "A,(11111111111111+22222222222222)*((33333333333333-44444444444444)+55555555555),#\n",
            ),
        ],
        room: ROOM,
    },
    // the length is judged before the line is read
    Case {
        name: "line of 81 bytes that is no line",
        parts: &[Part::Repeated("?", 81), Part::Plain("\n")],
        room: ROOM,
    },
    // not too long, so it is read
    Case {
        name: "line of 80 bytes that is no line",
        parts: &[Part::Repeated("?", 80), Part::Plain("\n")],
        room: ROOM,
    },
    // place 81 however long
    Case {
        name: "line of 16000 bytes",
        parts: &[Part::Repeated("a", 16000), Part::Plain("\n")],
        room: ROOM,
    },
    // no line end: the place after the last byte
    Case {
        name: "one byte",
        parts: &[Part::Plain("A")],
        room: ROOM,
    },
    // five bytes
    Case {
        name: "no line end",
        parts: &[Part::Plain("A,0,#")],
        room: ROOM,
    },
    // the place after the last byte
    Case {
        name: "79 bytes without line end",
        parts: &[Part::Repeated("a", 79)],
        room: ROOM,
    },
    // the place after the last byte
    Case {
        name: "80 bytes without line end",
        parts: &[Part::Repeated("a", 80)],
        room: ROOM,
    },
    // place 81 even where no line end follows
    Case {
        name: "81 bytes without line end",
        parts: &[Part::Repeated("a", 81)],
        room: ROOM,
    },
    // place 81 even where no line end follows
    Case {
        name: "200 bytes without line end",
        parts: &[Part::Repeated("a", 200)],
        room: ROOM,
    },
    // one byte on line 2
    Case {
        name: "no line end, second line",
        parts: &[Part::Plain("A,0,#\nB")],
        room: ROOM,
    },
    // 2 comes before the open group
    Case {
        name: "no line end in an open group",
        parts: &[Part::Plain("A,0,a\nA,")],
        room: ROOM,
    },
    // line by line: line 1 comes first
    Case {
        name: "no line end, bad first line",
        parts: &[Part::Plain("A,0,,\nA,")],
        room: ROOM,
    },
    // line by line: line 1 comes first
    Case {
        name: "long second line, bad first line",
        parts: &[
            Part::Plain("A\n"),
            Part::Repeated("a", 90),
            Part::Plain("\n"),
        ],
        room: ROOM,
    },
];
