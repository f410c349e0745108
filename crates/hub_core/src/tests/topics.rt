//! Subscriptions and publications.

use super::calls::{Call, Deed};
use super::scene::{Line, Row};
use super::{FIVE, FOUR, NINE, NOBODY, ONE, SIX, THREE, TWO};
use ws_kinds::{Kind, Left, Note, Why};

/// One octet more than a topic may have.
const LONG: &[u8] = &[97; 65];

/// One octet more than a message may have here, and no UTF-8.
const NO_TEXT: &[u8] = &[255; 126];

const JOIN: Deed<'static> = Deed::Join(b"room");

const PART: Deed<'static> = Deed::Part(b"room");

const HALL: Deed<'static> = Deed::Join(b"hall");

pub const TOPICS: &[Row<'static>] = &[
    // an order on a topic is refused for a reason
    Row {
        failing: (0, 0),
        max_conns: 6,
        calls: &[
            (ONE, Call::Admit),
            (TWO, Call::Admit),
            (THREE, Call::Refuse),
            (
                ONE,
                Call::Orders(&[
                    Deed::Join(b""),
                    Deed::Join(LONG),
                    Deed::Part(b""),
                    Deed::Part(LONG),
                    Deed::Publish(LONG, NO_TEXT),
                    Deed::Publish(b"", NO_TEXT),
                    Deed::Publish(b"b", NO_TEXT),
                    Deed::Publish(b"b", b"\xff"),
                    Deed::Part(b"b"),
                    Deed::Publish(b"b", LONG),
                ]),
            ),
            (ONE, Call::Topics),
            (
                ONE,
                Call::Orders(&[
                    Deed::Join(b"b"),
                    Deed::Join(b"a"),
                    Deed::Part(b"aa"),
                    Deed::Part(b"aa"),
                    Deed::Join(b"b"),
                    Deed::Join(b"aa"),
                    Deed::Join(b"a"),
                ]),
            ),
            (
                THREE,
                Call::Orders(&[Deed::Join(b""), Deed::Part(b"a"), Deed::Publish(b"", b"hi")]),
            ),
            (FOUR, Call::Orders(&[Deed::Join(b"c"), Deed::Part(b"")])),
            (NINE, Call::Orders(&[Deed::Join(b"c")])),
            (TWO, Call::Failed),
            (
                TWO,
                Call::Orders(&[Deed::Part(b"c"), Deed::Publish(b"a", b"hi")]),
            ),
        ],
        start: 6,
        lines: &[
            Line::Opened(ONE),
            Line::Took(ONE, 5),
            Line::Opened(TWO),
            Line::Took(TWO, 5),
            Line::Is(Note::Head {
                conn: THREE,
                status: 404,
            }),
            Line::Took(THREE, 4),
            Line::Unserved(ONE, 0, Why::BadTopic),
            Line::Unserved(ONE, 1, Why::BadTopic),
            Line::Unserved(ONE, 2, Why::BadTopic),
            Line::Unserved(ONE, 3, Why::BadTopic),
            Line::Unserved(ONE, 4, Why::BadTopic),
            Line::Unserved(ONE, 5, Why::BadTopic),
            Line::Unserved(ONE, 6, Why::TooBig),
            Line::Unserved(ONE, 7, Why::BadText),
            Line::Unserved(ONE, 0, Why::BadTopic),
            Line::Unserved(ONE, 0, Why::TooMany),
            Line::Unserved(ONE, 5, Why::TooMany),
            Line::Unserved(THREE, 0, Why::NotOpen),
            Line::Unserved(THREE, 1, Why::NotOpen),
            Line::Unserved(THREE, 2, Why::BadTopic),
            Line::Unserved(FOUR, 0, Why::NotOpen),
            Line::Unserved(FOUR, 1, Why::NotOpen),
            Line::Unserved(NINE, 0, Why::NotOpen),
            Line::Is(Note::Failed {
                conn: TWO,
                code: 1002,
            }),
            Line::Took(TWO, 4),
            Line::Unserved(TWO, 0, Why::NotOpen),
            Line::Took(ONE, 4),
        ],
        taken: &[],
        phases: &[],
        entries: (6, 6),
        closed: &[(TWO, 1002, b"")],
        faults: 0,
    },
    // a publication reaches the other subscribers
    Row {
        failing: (0, 0),
        max_conns: 6,
        calls: &[
            (ONE, Call::Admit),
            (TWO, Call::Admit),
            (THREE, Call::Admit),
            (FOUR, Call::Admit),
            (FIVE, Call::Admit),
            (SIX, Call::Admit),
            (SIX, Call::Orders(&[HALL, JOIN])),
            (FOUR, Call::Orders(&[JOIN, JOIN])),
            (TWO, Call::Orders(&[JOIN, HALL])),
            (FIVE, Call::Orders(&[HALL])),
            (TWO, Call::Orders(&[Deed::Publish(b"room", b"1")])),
            (
                ONE,
                Call::Orders(&[
                    Deed::Publish(b"room", b"2"),
                    JOIN,
                    Deed::Publish(b"room", b"3"),
                ]),
            ),
            (
                SIX,
                Call::Orders(&[
                    Deed::Publish(b"room", b"4"),
                    PART,
                    Deed::Publish(b"room", b"5"),
                    PART,
                ]),
            ),
            (
                THREE,
                Call::Orders(&[
                    Deed::Publish(b"room", b"6"),
                    Deed::Publish(b"roo", b"7"),
                    Deed::Publish(b"hall", b"8"),
                ]),
            ),
            (ONE, Call::Close(1005, b"")),
            (TWO, Call::Failed),
            (FIVE, Call::Ended),
            (
                THREE,
                Call::Orders(&[Deed::Publish(b"room", b"9"), Deed::Publish(b"hall", b"0")]),
            ),
            (SIX, Call::Lost),
            (
                THREE,
                Call::Orders(&[Deed::Publish(b"hall", b"+"), Deed::Publish(b"room", b"-")]),
            ),
        ],
        start: 18,
        lines: &[
            Line::Took(FOUR, 3),
            Line::Took(SIX, 3),
            Line::Took(TWO, 3),
            Line::Took(FOUR, 3),
            Line::Took(SIX, 3),
            Line::Took(TWO, 3),
            Line::Took(FOUR, 3),
            Line::Took(SIX, 3),
            Line::Took(ONE, 3),
            Line::Took(TWO, 3),
            Line::Took(FOUR, 3),
            Line::Took(ONE, 3),
            Line::Took(TWO, 3),
            Line::Took(FOUR, 3),
            Line::Took(ONE, 3),
            Line::Took(TWO, 3),
            Line::Took(FOUR, 3),
            Line::Took(TWO, 3),
            Line::Took(FIVE, 3),
            Line::Took(SIX, 3),
            Line::Is(Note::PeerClose {
                conn: ONE,
                code: 1005,
                reason: b"",
            }),
            Line::Took(ONE, 2),
            Line::Is(Note::Failed {
                conn: TWO,
                code: 1002,
            }),
            Line::Took(TWO, 4),
            Line::Gone(FIVE, Left::PeerEnd),
            Line::Took(FOUR, 3),
            Line::Took(SIX, 3),
            Line::Gone(SIX, Left::LinkFailed),
            Line::Took(FOUR, 3),
        ],
        taken: &[
            (ONE, b"reply\x81\x014\x81\x015\x81\x016\x88\x00"),
            (
                TWO,
                b"reply\x81\x012\x81\x013\x81\x014\x81\x015\x81\x016\x81\x018\x88\x02\x03\xea",
            ),
            (THREE, b"reply"),
            (
                FOUR,
                b"reply\x81\x011\x81\x012\x81\x013\x81\x014\x81\x015\x81\x016\x81\x019\x81\x01-",
            ),
            (FIVE, b"reply\x81\x018"),
            (SIX, b"reply\x81\x011\x81\x012\x81\x013\x81\x018\x81\x010"),
        ],
        phases: &[],
        entries: (6, 4),
        closed: &[
            (ONE, 1005, b""),
            (TWO, 1002, b""),
            (FIVE, 1006, b""),
            (SIX, 1006, b""),
        ],
        faults: 0,
    },
    // a publication counts its receivers
    Row {
        failing: (0, 0),
        max_conns: 6,
        calls: &[
            (ONE, Call::Admit),
            (TWO, Call::Admit),
            (THREE, Call::Admit),
            (TWO, Call::Orders(&[JOIN])),
            (ONE, Call::Orders(&[JOIN])),
            (FIVE, Call::Orders(&[JOIN])),
            (NOBODY, Call::Publish(b"hall", Kind::Text, b"hi", Ok(0))),
            (
                ONE,
                Call::Publish(b"", Kind::Text, NO_TEXT, Err(Why::BadTopic)),
            ),
            (
                NOBODY,
                Call::Publish(LONG, Kind::Text, b"hi", Err(Why::BadTopic)),
            ),
            (
                NOBODY,
                Call::Publish(b"room", Kind::Text, NO_TEXT, Err(Why::TooBig)),
            ),
            (
                NOBODY,
                Call::Publish(b"hall", Kind::Text, b"\xff", Err(Why::BadText)),
            ),
            (
                NOBODY,
                Call::Publish(&[97; 64], Kind::Binary, b"\xff", Ok(0)),
            ),
            (NOBODY, Call::Publish(b"room", Kind::Text, b"hi", Ok(2))),
            (NINE, Call::Publish(b"room", Kind::Binary, b"\xff", Ok(2))),
            (TWO, Call::Publish(b"room", Kind::Text, &[97; 125], Ok(1))),
            (THREE, Call::Publish(b"room", Kind::Text, b"", Ok(2))),
        ],
        start: 6,
        lines: &[
            Line::Opened(ONE),
            Line::Took(ONE, 5),
            Line::Opened(TWO),
            Line::Took(TWO, 5),
            Line::Opened(THREE),
            Line::Took(THREE, 5),
            Line::Unserved(FIVE, 0, Why::NotOpen),
            Line::Took(ONE, 4),
            Line::Took(TWO, 4),
            Line::Took(ONE, 3),
            Line::Took(TWO, 3),
            Line::Took(ONE, 127),
            Line::Took(ONE, 2),
            Line::Took(TWO, 2),
        ],
        taken: &[],
        phases: &[],
        entries: (6, 6),
        closed: &[],
        faults: 0,
    },
];
