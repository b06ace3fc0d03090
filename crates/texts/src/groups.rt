// Groups out of place: refusal 6. The comment at a case says why; `stdout` says what is due.
use crate::case::{Case, Part, ROOM};

pub(crate) static CASES: &[Case] = &[
    // no group A
    Case {
        name: "empty text",
        parts: &[Part::Plain("")],
        room: ROOM,
    },
    // the first group is A
    Case {
        name: "first group B",
        parts: &[Part::Plain("B,a,#\n")],
        room: ROOM,
    },
    // the first group is A
    Case {
        name: "first group Z",
        parts: &[Part::Plain("Z,a,#\n")],
        room: ROOM,
    },
    // the line after the last
    Case {
        name: "open at the end",
        parts: &[Part::Plain("A,0,b\n")],
        room: ROOM,
    },
    // the line after the last
    Case {
        name: "second group open at the end",
        parts: &[Part::Plain("A,a,#\nB,a,b\n")],
        room: ROOM,
    },
    // A has no # line yet
    Case {
        name: "other letter in an open group",
        parts: &[Part::Plain("A,a,b\nB,a,#\n")],
        room: ROOM,
    },
    // B has no # line yet
    Case {
        name: "other letter in an open second group",
        parts: &[Part::Plain("A,a,#\nB,a,b\nC,a,#\n")],
        room: ROOM,
    },
    // A is closed
    Case {
        name: "group goes on after its #",
        parts: &[Part::Plain("A,a,#\nA,a,#\n")],
        room: ROOM,
    },
    // A is closed
    Case {
        name: "group comes again",
        parts: &[Part::Plain("A,a,#\nB,a,#\nA,a,#\n")],
        room: ROOM,
    },
    // all letters are used up
    Case {
        name: "27th group",
        parts: &[
            Part::Plain(
                "A,a,#\nB,a,#\nC,a,#\nD,a,#\nE,a,#\nF,a,#\nG,a,#\nH,a,#\nI,a,#\nJ,a,#\nK,a,#\nL,a,#\nM,a,#\nN,a,#\nO,a,#\nP,a,#\nQ,a,#\nR,a,#\nS,a,#\nT,a,#\nU,a,#\nV,a,#\nW,a,#\nX,a,#\nY,a,#\nZ,a,#\n",
            ),
            Part::Plain("A,a,#\n"),
        ],
        room: ROOM,
    },
    // line by line
    Case {
        name: "forbidden letter, then a bad line",
        parts: &[Part::Plain("B,a,#\nA,\n")],
        room: ROOM,
    },
    // 7 is judged after all lines
    Case {
        name: "open at the end, letter without group",
        parts: &[Part::Plain("A,Q,b\n")],
        room: ROOM,
    },
    // 9 is judged after all lines
    Case {
        name: "open after 400 lines",
        parts: &[Part::Repeated("A,a,b\n", 400)],
        room: ROOM,
    },
];
