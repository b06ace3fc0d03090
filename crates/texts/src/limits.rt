// Instructions past the limit and tapes that find no room: refusals 9 and 10. The comment at a case says why; `stdout` says what is due.
use crate::case::{Case, Part, ROOM};

// A group for each letter, of one line.
const ALL_GROUPS: &str =
    "A,a,#\nB,a,#\nC,a,#\nD,a,#\nE,a,#\nF,a,#\nG,a,#\nH,a,#\nI,a,#\nJ,a,#\nK,a,#\nL,a,#\nM,a,#\nN,a,#\nO,a,#\nP,a,#\nQ,a,#\nR,a,#\nS,a,#\nT,a,#\nU,a,#\nV,a,#\nW,a,#\nX,a,#\nY,a,#\nZ,a,#\n";

pub(crate) static CASES: &[Case] = &[
    // the line of the 373rd
    Case {
        name: "373 instructions",
        parts: &[Part::Repeated("A,a,b\n", 372), Part::Plain("A,a,#\n")],
        room: ROOM,
    },
    // the first that is too many
    Case {
        name: "373rd instruction, more follow",
        parts: &[Part::Repeated("A,a,b\n", 1000), Part::Plain("A,a,#\n")],
        room: ROOM,
    },
    // 370 and 3
    Case {
        name: "373rd instruction inside a line",
        parts: &[
            Part::Repeated("A,a,b\n", 370),
            Part::Plain("A,(a+b)*(c+d),#\n"),
        ],
        room: ROOM,
    },
    // 372 and 3
    Case {
        name: "373rd instruction begins a line of three",
        parts: &[
            Part::Repeated("A,a,b\n", 372),
            Part::Plain("A,(a+b)*(c+d),#\n"),
        ],
        room: ROOM,
    },
    // 19 lines of 19 are 361; the earliest line there can be
    Case {
        name: "373rd instruction on line 20",
        parts: &[
            Part::Repeated(
                "A,((((((((((((((((a+b)+b)+b)+b)+b)+b)+b)+b)+b)+b)+b)+b)+b)+b)+b)+b)+((a+b)+b),a\n",
                20,
            ),
            Part::Plain("A,a,#\n"),
        ],
        room: ROOM,
    },
    // 347 and 26; heads are no instructions
    Case {
        name: "373 instructions over 26 groups",
        parts: &[Part::Repeated("A,a,b\n", 347), Part::Plain(ALL_GROUPS)],
        room: ROOM,
    },
    // 372, 26 heads, end
    Case {
        name: "372 instructions over 26 groups",
        parts: &[Part::Repeated("A,a,b\n", 346), Part::Plain(ALL_GROUPS)],
        room: ROOM,
    },
    // 9 comes before 10
    Case {
        name: "373 instructions, no room",
        parts: &[Part::Repeated("A,a,b\n", 372), Part::Plain("A,a,#\n")],
        room: 0,
    },
    // 10 comes last
    Case {
        name: "bad constant, no room",
        parts: &[Part::Plain("A,01,b\n")],
        room: 0,
    },
    // 8 words, room for 8
    Case {
        name: "tape fits exactly",
        parts: &[Part::Plain("A,?,n\nA,(n-t)*p,c\nA,0,#\n")],
        room: 8,
    },
    // 8 words, room for 7
    Case {
        name: "tape one word short",
        parts: &[Part::Plain("A,?,n\nA,(n-t)*p,c\nA,0,#\n")],
        room: 7,
    },
    // 3 words, room for none
    Case {
        name: "no room",
        parts: &[Part::Plain("A,a,#\n")],
        room: 0,
    },
    // 3 words, room for 2
    Case {
        name: "room for the end word alone is missing",
        parts: &[Part::Plain("A,a,#\n")],
        room: 2,
    },
    // 3 words, room for 3
    Case {
        name: "shortest tape fits exactly",
        parts: &[Part::Plain("A,a,#\n")],
        room: 3,
    },
    // 92 words, 26 heads, 46 + 300 + 26 instructions, end
    Case {
        name: "longest tape",
        parts: &[
            Part::Numbered {
                before: "A,",
                first: 1,
                last: 46,
                after: ",a\n",
            },
            Part::Repeated("A,a,b\n", 300),
            Part::Plain(ALL_GROUPS),
        ],
        room: 491,
    },
    // 491 words, room for 490
    Case {
        name: "longest tape, one word short",
        parts: &[
            Part::Numbered {
                before: "A,",
                first: 1,
                last: 46,
                after: ",a\n",
            },
            Part::Repeated("A,a,b\n", 300),
            Part::Plain(ALL_GROUPS),
        ],
        room: 490,
    },
];
