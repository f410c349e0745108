//! Connections that the handler closes.

use super::calls::{Call, Deed};
use super::scene::{Line, Row};
use super::{NINE, ONE, THREE, TWO};
use ws_kinds::{Left, Note, Phase, Why};

/// One octet more than a reason may have.
const LONG: &[u8] = &[97; 124];

/// As many octets as a reason may have.
const LONGEST: &[u8] = &[97; 123];

pub const CLOSES: &[Row<'static>] = &[
    // one that is served makes the connection leave, once
    Row {
        failing: (0, 0),
        max_conns: 6,
        calls: &[
            (ONE, Call::Admit),
            (TWO, Call::Admit),
            (
                ONE,
                Call::Orders(&[
                    Deed::Join(b"room"),
                    Deed::Close(1000, b"bye"),
                    Deed::Close(1001, b""),
                    Deed::Send(ONE, b"hi"),
                    Deed::Join(b"room"),
                    Deed::Publish(b"room", b"hi"),
                ]),
            ),
            (
                TWO,
                Call::Orders(&[Deed::Publish(b"room", b"hi"), Deed::Close(4999, LONGEST)]),
            ),
            (THREE, Call::Orders(&[Deed::Close(1000, b"")])),
            (NINE, Call::Orders(&[Deed::Close(1000, b"")])),
            (ONE, Call::Turn),
        ],
        start: 10,
        lines: &[
            Line::Took(ONE, 7),
            Line::Unserved(ONE, 2, Why::NotOpen),
            Line::Unserved(ONE, 3, Why::NotOpen),
            Line::Unserved(ONE, 4, Why::NotOpen),
            Line::Took(TWO, 127),
            Line::Unserved(THREE, 0, Why::NotOpen),
            Line::Unserved(NINE, 0, Why::NotOpen),
            Line::Is(Note::Turn),
        ],
        taken: &[(ONE, b"reply\x88\x05\x03\xe8bye")],
        phases: &[
            (ONE, Some(Phase::Leaving)),
            (TWO, Some(Phase::Leaving)),
            (THREE, Some(Phase::Head)),
        ],
        entries: (6, 6),
        closed: &[(ONE, 1000, b"bye"), (TWO, 4999, LONGEST)],
        faults: 0,
    },
    // one is refused for its code or its reason, and changes nothing
    Row {
        failing: (0, 0),
        max_conns: 6,
        calls: &[
            (ONE, Call::Admit),
            (
                ONE,
                Call::Orders(&[
                    Deed::Close(999, b""),
                    Deed::Close(1004, b""),
                    Deed::Close(1005, b""),
                    Deed::Close(1006, b""),
                    Deed::Close(1015, b""),
                    Deed::Close(2999, b""),
                    Deed::Close(5000, b""),
                    Deed::Close(0, b""),
                    Deed::Close(1000, LONG),
                    Deed::Close(1000, b"\xff"),
                    Deed::Send(ONE, b"hi"),
                    Deed::Close(3000, b""),
                ]),
            ),
        ],
        start: 8,
        lines: &[
            Line::Unserved(ONE, 0, Why::BadCode),
            Line::Unserved(ONE, 1, Why::BadCode),
            Line::Unserved(ONE, 2, Why::BadCode),
            Line::Unserved(ONE, 3, Why::BadCode),
            Line::Unserved(ONE, 4, Why::BadCode),
            Line::Unserved(ONE, 5, Why::BadCode),
            Line::Unserved(ONE, 6, Why::BadCode),
            Line::Unserved(ONE, 7, Why::BadCode),
            Line::Unserved(ONE, 8, Why::BadCode),
            Line::Unserved(ONE, 9, Why::BadCode),
            Line::Took(ONE, 4),
            Line::Took(ONE, 4),
        ],
        taken: &[(ONE, b"reply\x81\x02hi\x88\x02\x0b\xb8")],
        phases: &[(ONE, Some(Phase::Leaving))],
        entries: (6, 6),
        closed: &[(ONE, 3000, b"")],
        faults: 0,
    },
    // a link that fails in that very write is gone, and the Closed event is the order's
    Row {
        failing: (2, 0),
        max_conns: 6,
        calls: &[
            (ONE, Call::Admit),
            (
                ONE,
                Call::Orders(&[Deed::Close(1000, b"bye"), Deed::Close(1000, b"bye")]),
            ),
        ],
        start: 8,
        lines: &[
            Line::Gone(ONE, Left::LinkFailed),
            Line::Unserved(ONE, 1, Why::NotOpen),
        ],
        taken: &[(ONE, b"reply")],
        phases: &[(ONE, Some(Phase::Gone))],
        entries: (6, 5),
        closed: &[(ONE, 1000, b"bye")],
        faults: 1,
    },
];
