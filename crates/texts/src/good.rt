// Accepted texts: the words of their tapes, and limits that are kept. The comment at a case says why; `stdout` says what is due.
use crate::case::{Case, Part, ROOM};

pub(crate) static CASES: &[Case] = &[
    // n 15, t 21, p 17, c 4; the constant 0 in cell 54 is no end
    Case {
        name: "net weight",
        parts: &[Part::Plain("A,?,n\nA,(n-t)*p,c\nA,0,#\n")],
        room: ROOM,
    },
    // head of A, a carried to the place register, end
    Case {
        name: "shortest",
        parts: &[Part::Plain("A,a,#\n")],
        room: ROOM,
    },
    // 0001 is the reading organ
    Case {
        name: "reading to the place register",
        parts: &[Part::Plain("A,?,#\n")],
        room: ROOM,
    },
    // a is 0002, @a 1002, the label 0001, the place register 0000
    Case {
        name: "every target",
        parts: &[Part::Plain("A,z,a\nA,z,@a\nA,z,?\nA,z,#\n")],
        room: ROOM,
    },
    // @z is 1027, A 0028, the constant 0054
    Case {
        name: "every atom",
        parts: &[Part::Plain("A,@z,a\nA,A,b\nA,7,c\nA,a,#\n")],
        room: ROOM,
    },
    // codes 01 to 09 without 05
    Case {
        name: "every sign",
        parts: &[Part::Plain(
            "A,a+b,c\nA,a*b,c\nA,a-b,c\nA,a:b,c\nA,a~b,c\nA,a%b,c\nA,a>b,c\nA,a<b,#\n",
        )],
        room: ROOM,
    },
    // the left operand comes first
    Case {
        name: "operands in order",
        parts: &[Part::Plain("A,b-a,#\n")],
        room: ROOM,
    },
    // a+b waits in 500 while c+d is worked
    Case {
        name: "two results side by side",
        parts: &[Part::Plain("A,(a+b)*(c+d),#\n")],
        room: ROOM,
    },
    // each result is used at once: 500 serves again
    Case {
        name: "left inside left",
        parts: &[Part::Plain("A,((a+b)*c)+d,#\n")],
        room: ROOM,
    },
    // atoms do not wait in temporaries
    Case {
        name: "right inside right",
        parts: &[Part::Plain("A,a+(b*(c+d)),#\n")],
        room: ROOM,
    },
    // the inner product uses 501 and 502; one result still waits, so it goes to 501
    Case {
        name: "three results",
        parts: &[Part::Plain("A,(a+b)*((c+d)*(e+f)),#\n")],
        room: ROOM,
    },
    // 3 appears first though 1+2 is worked first
    Case {
        name: "constants in text order",
        parts: &[Part::Plain("A,3*(1+2),#\n")],
        room: ROOM,
    },
    // one cell for equal constants
    Case {
        name: "a constant again",
        parts: &[Part::Plain("A,5+5,a\nA,5,#\n")],
        room: ROOM,
    },
    // 0 and fourteen nines
    Case {
        name: "least and greatest constant",
        parts: &[Part::Plain("A,0+99999999999999,#\n")],
        room: ROOM,
    },
    // below the limit of 14
    Case {
        name: "13 digits",
        parts: &[Part::Plain("A,1000000000000,#\n")],
        room: ROOM,
    },
    // at the limit
    Case {
        name: "14 digits",
        parts: &[Part::Plain("A,10000000000000,#\n")],
        room: ROOM,
    },
    // B is mentioned before its group comes
    Case {
        name: "two groups",
        parts: &[Part::Plain("A,B,#\nB,A,#\n")],
        room: ROOM,
    },
    // only the first has to be A; heads in text order; Z is 53, M 40
    Case {
        name: "groups in any order",
        parts: &[Part::Plain("A,Z,#\nZ,M,#\nM,0,#\n")],
        room: ROOM,
    },
    // a pointer adds 1000, also as a target
    Case {
        name: "pointers",
        parts: &[Part::Plain("A,@a+@b,@c\nA,?,@i\nA,a,#\n")],
        room: ROOM,
    },
    // 0001 is the reading as an operand and the label as a result
    Case {
        name: "reading to the label",
        parts: &[Part::Plain("A,?,?\nA,a,#\n")],
        room: ROOM,
    },
    // 26 heads, 26 instructions, end
    Case {
        name: "26 groups",
        parts: &[Part::Plain(
            "A,a,#\nB,a,#\nC,a,#\nD,a,#\nE,a,#\nF,a,#\nG,a,#\nH,a,#\nI,a,#\nJ,a,#\nK,a,#\nL,a,#\nM,a,#\nN,a,#\nO,a,#\nP,a,#\nQ,a,#\nR,a,#\nS,a,#\nT,a,#\nU,a,#\nV,a,#\nW,a,#\nX,a,#\nY,a,#\nZ,a,#\n",
        )],
        room: ROOM,
    },
    // 67 bytes, 9 digits, `),a`
    Case {
        name: "line of 79 bytes",
        parts: &[Part::Plain(
            "A,(11111111111111+22222222222222)*((33333333333333-44444444444444)+555555555),a\nA,a,#\n",
        )],
        room: ROOM,
    },
    // 67 bytes, 10 digits, `),a`
    Case {
        name: "line of 80 bytes",
        parts: &[Part::Plain(
            "A,(11111111111111+22222222222222)*((33333333333333-44444444444444)+5555555555),a\nA,a,#\n",
        )],
        room: ROOM,
    },
    // 16 operations, one after the other
    Case {
        name: "15 parentheses",
        parts: &[Part::Plain(
            "A,(((((((((((((((a+b)+b)+b)+b)+b)+b)+b)+b)+b)+b)+b)+b)+b)+b)+b)+b,#\n",
        )],
        room: ROOM,
    },
    // 17 operations, one after the other
    Case {
        name: "16 parentheses",
        parts: &[Part::Plain(
            "A,((((((((((((((((a+b)+b)+b)+b)+b)+b)+b)+b)+b)+b)+b)+b)+b)+b)+b)+b)+b,#\n",
        )],
        room: ROOM,
    },
    // only those that are open count
    Case {
        name: "16 parentheses, closed, and one more",
        parts: &[Part::Plain(
            "A,((((((((((((((((a+b)+b)+b)+b)+b)+b)+b)+b)+b)+b)+b)+b)+b)+b)+b)+b)+(a+b),#\n",
        )],
        room: ROOM,
    },
    // 79 bytes: 16 to the left, 2 to the right, their sum
    Case {
        name: "19 operations",
        parts: &[Part::Plain(
            "A,((((((((((((((((a+b)+b)+b)+b)+b)+b)+b)+b)+b)+b)+b)+b)+b)+b)+b)+b)+((a+b)+b),#\n",
        )],
        room: ROOM,
    },
    // the same with a target of two bytes
    Case {
        name: "19 operations in 80 bytes",
        parts: &[Part::Plain(
            "A,((((((((((((((((a+b)+b)+b)+b)+b)+b)+b)+b)+b)+b)+b)+b)+b)+b)+b)+b)+((a+b)+b),@a\nA,a,#\n",
        )],
        room: ROOM,
    },
    // 79 bytes; the sums wait in 500 to 509, then each product joins the last two
    Case {
        name: "ten results wait",
        parts: &[Part::Plain(
            "A,(a+b)*((a+b)*((a+b)*((a+b)*((a+b)*((a+b)*((a+b)*((a+b)*((a+b)*(c+d))))))))),#\n",
        )],
        room: ROOM,
    },
    // 90 words, head, 46 instructions, end
    Case {
        name: "45 constants",
        parts: &[
            Part::Numbered {
                before: "A,",
                first: 1,
                last: 45,
                after: ",a\n",
            },
            Part::Plain("A,a,#\n"),
        ],
        room: ROOM,
    },
    // 92 words, head, 47 instructions, end
    Case {
        name: "46 constants",
        parts: &[
            Part::Numbered {
                before: "A,",
                first: 1,
                last: 46,
                after: ",a\n",
            },
            Part::Plain("A,a,#\n"),
        ],
        room: ROOM,
    },
    // a constant that was there is no 47th
    Case {
        name: "46 constants, one again",
        parts: &[
            Part::Numbered {
                before: "A,",
                first: 1,
                last: 46,
                after: ",a\n",
            },
            Part::Plain("A,1,#\n"),
        ],
        room: ROOM,
    },
    // a group letter is no constant
    Case {
        name: "46 constants and a letter",
        parts: &[
            Part::Numbered {
                before: "A,",
                first: 1,
                last: 46,
                after: ",a\n",
            },
            Part::Plain("A,A,#\n"),
        ],
        room: ROOM,
    },
    // head, 371, end
    Case {
        name: "371 instructions",
        parts: &[Part::Repeated("A,a,b\n", 370), Part::Plain("A,a,#\n")],
        room: ROOM,
    },
    // head, 372, end
    Case {
        name: "372 instructions",
        parts: &[Part::Repeated("A,a,b\n", 371), Part::Plain("A,a,#\n")],
        room: ROOM,
    },
    // 369 and 3
    Case {
        name: "372 instructions, the last three in one line",
        parts: &[
            Part::Repeated("A,a,b\n", 369),
            Part::Plain("A,(a+b)*(c+d),#\n"),
        ],
        room: ROOM,
    },
    // 19 lines of 19, and 1; head and end
    Case {
        name: "362 instructions in 20 lines",
        parts: &[
            Part::Repeated(
                "A,((((((((((((((((a+b)+b)+b)+b)+b)+b)+b)+b)+b)+b)+b)+b)+b)+b)+b)+b)+((a+b)+b),a\n",
                19,
            ),
            Part::Plain("A,a,#\n"),
        ],
        room: ROOM,
    },
    // constants 100 0 1 2 48 112 10: 14 words; 3 heads; 3, 14 and 5 instructions; end
    Case {
        name: "check digit",
        parts: &[Part::Plain(
            "A,100,i\nA,0,s\nA,B,#\nB,?,@i\nB,s+(@i*(1+(2*(i%2)))),s\nB,48+@i,?\nB,i+1,i\nB,(112-i)<1,f\nB,(B*f)+(C*(1-f)),#\nC,(10-(s%10))%10,k\nC,48+k,?\nC,0,#\n",
        )],
        room: ROOM,
    },
];
