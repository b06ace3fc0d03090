// Letters without group and constants past the limit: refusals 7 and 8. The comment at a case says why; `stdout` says what is due.
use crate::case::{Case, Part, ROOM};

pub(crate) static CASES: &[Case] = &[
    // no group B
    Case {
        name: "letter without group",
        parts: &[Part::Plain("A,B,#\n")],
        room: ROOM,
    },
    // A , a + ( b * are 7 bytes
    Case {
        name: "letter without group inside",
        parts: &[Part::Plain("A,a+(b*Q),#\n")],
        room: ROOM,
    },
    // B comes before C
    Case {
        name: "first of two letters",
        parts: &[Part::Plain("A,0,a\nA,(1+B)*C,#\n")],
        room: ROOM,
    },
    // 2 + 14 + 1 bytes before it
    Case {
        name: "letter after a constant of 14 digits",
        parts: &[Part::Plain("A,11111111111111+Q,#\n")],
        room: ROOM,
    },
    // a pointer has two bytes
    Case {
        name: "letter after a pointer",
        parts: &[Part::Plain("A,@a+Q,#\n")],
        room: ROOM,
    },
    // 77 bytes before it; line of 80
    Case {
        name: "letter without group at place 78",
        parts: &[Part::Plain(
            "A,(((11111111111111+22222222222222)*(33333333333333+44444444444444))+555555)*Q,#\n",
        )],
        room: ROOM,
    },
    // B has a group, Z has none
    Case {
        name: "letter without group on the last line",
        parts: &[Part::Plain("A,B,#\nB,a,b\nB,Z,#\n")],
        room: ROOM,
    },
    // 7 over the whole text comes before 8
    Case {
        name: "47 constants and a letter without group",
        parts: &[
            Part::Numbered {
                before: "A,",
                first: 1,
                last: 47,
                after: ",a\n",
            },
            Part::Plain("A,Q,#\n"),
        ],
        room: ROOM,
    },
    // line 47 has the 47th
    Case {
        name: "47 constants",
        parts: &[
            Part::Numbered {
                before: "A,",
                first: 1,
                last: 47,
                after: ",a\n",
            },
            Part::Plain("A,a,#\n"),
        ],
        room: ROOM,
    },
    // 0 is a constant like any other
    Case {
        name: "47th constant is 0",
        parts: &[
            Part::Numbered {
                before: "A,",
                first: 1,
                last: 46,
                after: ",a\n",
            },
            Part::Plain("A,0,#\n"),
        ],
        room: ROOM,
    },
    // A , ( a + are 5 bytes
    Case {
        name: "47th constant inside",
        parts: &[
            Part::Numbered {
                before: "A,",
                first: 1,
                last: 46,
                after: ",a\n",
            },
            Part::Plain("A,(a+47)*b,#\n"),
        ],
        room: ROOM,
    },
    // 46 was there
    Case {
        name: "47th constant second in its line",
        parts: &[
            Part::Numbered {
                before: "A,",
                first: 1,
                last: 46,
                after: ",a\n",
            },
            Part::Plain("A,46+47,#\n"),
        ],
        room: ROOM,
    },
    // the order of the text counts: A , 4 6 * ( a + are 8 bytes
    Case {
        name: "47th constant worked before the 46th",
        parts: &[
            Part::Numbered {
                before: "A,",
                first: 1,
                last: 45,
                after: ",a\n",
            },
            Part::Plain("A,46*(a+47),#\n"),
        ],
        room: ROOM,
    },
    // 41 and 5 on the line before it
    Case {
        name: "47th constant at place 78",
        parts: &[
            Part::Numbered {
                before: "A,",
                first: 1,
                last: 41,
                after: ",a\n",
            },
            Part::Plain(
                "A,(((11111111111111+22222222222222)*(33333333333333+44444444444444))+555555)*0,#\n",
            ),
        ],
        room: ROOM,
    },
    // 8 comes before 9
    Case {
        name: "47 constants and 400 instructions",
        parts: &[
            Part::Numbered {
                before: "A,",
                first: 1,
                last: 400,
                after: ",a\n",
            },
            Part::Plain("A,a,#\n"),
        ],
        room: ROOM,
    },
];
