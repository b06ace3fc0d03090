// Bytes out of place: refusal 3. The comment at a case says why; `stdout` says what is due.
use crate::case::{Case, Part, ROOM};

pub(crate) static CASES: &[Case] = &[
    // a line end is no group letter
    Case {
        name: "empty line",
        parts: &[Part::Plain("\n")],
        room: ROOM,
    },
    // a line end is no group letter
    Case {
        name: "empty line at the end",
        parts: &[Part::Plain("A,a,#\n\n")],
        room: ROOM,
    },
    // a group letter is A to Z
    Case {
        name: "small letter first",
        parts: &[Part::Plain("a,0,#\n")],
        room: ROOM,
    },
    // byte 64, one below A
    Case {
        name: "before A",
        parts: &[Part::Plain("@,0,#\n")],
        room: ROOM,
    },
    // byte 91, one above Z
    Case {
        name: "after Z",
        parts: &[Part::Plain("[,0,#\n")],
        room: ROOM,
    },
    // the line end stands where the comma should
    Case {
        name: "letter alone",
        parts: &[Part::Plain("A\n")],
        room: ROOM,
    },
    // no comma
    Case {
        name: "no comma",
        parts: &[Part::Plain("A;0,#\n")],
        room: ROOM,
    },
    // the line end begins no side
    Case {
        name: "no side",
        parts: &[Part::Plain("A,\n")],
        room: ROOM,
    },
    // a comma begins no side
    Case {
        name: "empty side",
        parts: &[Part::Plain("A,,b\n")],
        room: ROOM,
    },
    // a blank begins no side
    Case {
        name: "blank",
        parts: &[Part::Plain("A, a,b\n")],
        room: ROOM,
    },
    // a sign begins no operand
    Case {
        name: "sign first",
        parts: &[Part::Plain("A,+a,b\n")],
        room: ROOM,
    },
    // byte 0 begins nothing
    Case {
        name: "byte 0",
        parts: &[Part::Plain("A,\0,b\n")],
        room: ROOM,
    },
    // no byte of the language
    Case {
        name: "byte above 127",
        parts: &[Part::Plain("A,é,b\n")],
        room: ROOM,
    },
    // byte 96, one below a
    Case {
        name: "below a",
        parts: &[Part::Plain("A,`,b\n")],
        room: ROOM,
    },
    // byte 123, one above z
    Case {
        name: "above z",
        parts: &[Part::Plain("A,{,b\n")],
        room: ROOM,
    },
    // neither comma nor sign
    Case {
        name: "no target",
        parts: &[Part::Plain("A,a\n")],
        room: ROOM,
    },
    // = is no sign
    Case {
        name: "no such sign",
        parts: &[Part::Plain("A,a=b,c\n")],
        room: ROOM,
    },
    // after @ a variable
    Case {
        name: "pointer at nothing",
        parts: &[Part::Plain("A,@,b\n")],
        room: ROOM,
    },
    // after @ a variable
    Case {
        name: "pointer at a group",
        parts: &[Part::Plain("A,@A,b\n")],
        room: ROOM,
    },
    // a reading stands alone
    Case {
        name: "reading in a pair",
        parts: &[Part::Plain("A,?+a,b\n")],
        room: ROOM,
    },
    // a reading stands alone
    Case {
        name: "reading as an operand",
        parts: &[Part::Plain("A,a+?,b\n")],
        room: ROOM,
    },
    // after `(a` a sign
    Case {
        name: "lone atom in parentheses",
        parts: &[Part::Plain("A,(a),b\n")],
        room: ROOM,
    },
    // a side is one pair
    Case {
        name: "two signs",
        parts: &[Part::Plain("A,a+b+c,d\n")],
        room: ROOM,
    },
    // none is open
    Case {
        name: "parenthesis too many",
        parts: &[Part::Plain("A,a+b),c\n")],
        room: ROOM,
    },
    // `)` should stand there
    Case {
        name: "parenthesis left open",
        parts: &[Part::Plain("A,(a+b,c\n")],
        room: ROOM,
    },
    // after the operand a sign
    Case {
        name: "side in parentheses",
        parts: &[Part::Plain("A,(a+b),c\n")],
        room: ROOM,
    },
    // the line end is no target
    Case {
        name: "target missing",
        parts: &[Part::Plain("A,a,\n")],
        room: ROOM,
    },
    // a digit is no target
    Case {
        name: "constant as target",
        parts: &[Part::Plain("A,a,0\n")],
        room: ROOM,
    },
    // a group letter is no target
    Case {
        name: "group as target",
        parts: &[Part::Plain("A,a,B\n")],
        room: ROOM,
    },
    // a parenthesis is no target
    Case {
        name: "parenthesis as target",
        parts: &[Part::Plain("A,a,(\n")],
        room: ROOM,
    },
    // after @ a variable
    Case {
        name: "pointer target at nothing",
        parts: &[Part::Plain("A,a,@\n")],
        room: ROOM,
    },
    // after @ a variable
    Case {
        name: "pointer target at a digit",
        parts: &[Part::Plain("A,a,@1\n")],
        room: ROOM,
    },
    // the line should end
    Case {
        name: "more after the target",
        parts: &[Part::Plain("A,a,bc\n")],
        room: ROOM,
    },
    // the line should end
    Case {
        name: "carriage return",
        parts: &[Part::Plain("A,a,#\r\n")],
        room: ROOM,
    },
    // the line should end
    Case {
        name: "byte 0 after the target",
        parts: &[Part::Plain("A,a,#\0\n")],
        room: ROOM,
    },
    // 80 bytes, the last a group letter as target
    Case {
        name: "bad byte at place 80",
        parts: &[Part::Plain(
            "A,(11111111111111+22222222222222)*((33333333333333-44444444444444)+5555555555),A\n",
        )],
        room: ROOM,
    },
    // 80 bytes, and the line end where the target should be
    Case {
        name: "line end out of place at 81",
        parts: &[Part::Plain(
            "A,(11111111111111+22222222222222)*((33333333333333-44444444444444)+55555555555),\n",
        )],
        room: ROOM,
    },
    // lines count from 1
    Case {
        name: "bad byte on a middle line",
        parts: &[Part::Plain("A,a,b\nA,a,,\nA,a,#\n")],
        room: ROOM,
    },
    // the line is read before its group is judged
    Case {
        name: "bad byte in the wrong group",
        parts: &[Part::Plain("B,a,,\n")],
        room: ROOM,
    },
];
