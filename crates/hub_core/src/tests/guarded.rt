//! Subscriptions that a guard allows or not.

use super::calls::{Call, Deed};
use super::scene::{Line, Row};
use super::{NINE, NOBODY, ONE, TWO};
use ws_kinds::{Conn, Kind, Why};

/// One octet more than a topic may have.
const LONG: &[u8] = &[97; 65];

const PUBLIC_ROOM: Deed<'static> = Deed::Join(b"pub/a");

/// What there is where only topics that begin with `pub/` are allowed.
pub const PUBLIC: &[Row<'static>] = &[Row {
    failing: (0, 0),
    max_conns: 6,
    calls: &[
        (ONE, Call::Admit),
        (
            ONE,
            Call::Orders(&[
                PUBLIC_ROOM,
                Deed::Join(b"priv"),
                Deed::Join(b"pub"),
                PUBLIC_ROOM,
                Deed::Join(b""),
                Deed::Join(LONG),
                Deed::Part(b"priv"),
                Deed::Publish(b"priv", b"1"),
            ]),
        ),
        (TWO, Call::Orders(&[Deed::Join(b"priv"), PUBLIC_ROOM])),
        (NINE, Call::Orders(&[Deed::Join(b"priv")])),
        (NOBODY, Call::Publish(b"pub/a", Kind::Text, b"hi", Ok(1))),
        (NOBODY, Call::Publish(b"priv", Kind::Text, b"hi", Ok(0))),
        (ONE, Call::Orders(&[Deed::Part(b"pub/a"), PUBLIC_ROOM])),
        (NOBODY, Call::Publish(b"pub/a", Kind::Text, b"ho", Ok(1))),
    ],
    start: 8,
    lines: &[
        Line::Unserved(ONE, 1, Why::Forbidden),
        Line::Unserved(ONE, 2, Why::Forbidden),
        Line::Unserved(ONE, 4, Why::BadTopic),
        Line::Unserved(ONE, 5, Why::BadTopic),
        Line::Unserved(TWO, 0, Why::NotOpen),
        Line::Unserved(TWO, 1, Why::NotOpen),
        Line::Unserved(NINE, 0, Why::NotOpen),
        Line::Took(ONE, 4),
        Line::Took(ONE, 4),
    ],
    taken: &[(ONE, b"reply\x81\x02hi\x81\x02ho")],
    phases: &[],
    entries: (6, 6),
    closed: &[],
    faults: 0,
}];

/// The first connection subscribes to a topic, where every one is allowed.
pub const SUBSCRIBED: &[(Conn, Call<'static>)] = &[
    (ONE, Call::Admit),
    (ONE, Call::Orders(&[Deed::Join(b"priv")])),
];

/// What comes then where only topics that begin with `pub/` are allowed: the subscription is forbidden, and stays.
pub const AGAIN: Row<'static> = Row {
    failing: (0, 0),
    max_conns: 6,
    calls: &[
        (ONE, Call::Orders(&[Deed::Join(b"priv")])),
        (NOBODY, Call::Publish(b"priv", Kind::Text, b"hi", Ok(1))),
    ],
    start: 8,
    lines: &[Line::Unserved(ONE, 0, Why::Forbidden), Line::Took(ONE, 4)],
    taken: &[],
    phases: &[],
    entries: (6, 6),
    closed: &[],
    faults: 0,
};

/// What there is where topics that begin with `$` are not allowed.
pub const MARKED: &[Row<'static>] = &[
    Row {
        failing: (0, 0),
        max_conns: 6,
        calls: &[
            (ONE, Call::Admit),
            (
                ONE,
                Call::Orders(&[
                    Deed::Join(b"$x"),
                    Deed::Join(b"priv"),
                    Deed::Join(b"$"),
                    Deed::Join(b"x$"),
                    Deed::Join(b"priv"),
                ]),
            ),
            (NOBODY, Call::Publish(b"$x", Kind::Text, b"hi", Ok(0))),
            (NOBODY, Call::Publish(b"priv", Kind::Text, b"hi", Ok(1))),
            (NOBODY, Call::Publish(b"x$", Kind::Text, b"ho", Ok(1))),
        ],
        start: 8,
        lines: &[
            Line::Unserved(ONE, 0, Why::Forbidden),
            Line::Unserved(ONE, 2, Why::Forbidden),
            Line::Took(ONE, 4),
            Line::Took(ONE, 4),
        ],
        taken: &[(ONE, b"reply\x81\x02hi\x81\x02ho")],
        phases: &[],
        entries: (6, 6),
        closed: &[],
        faults: 0,
    },
    // what is forbidden is named so by one with as many topics as there may be, too
    Row {
        failing: (0, 0),
        max_conns: 6,
        calls: &[
            (ONE, Call::Admit),
            (ONE, Call::Topics),
            (
                ONE,
                Call::Orders(&[Deed::Join(b"$x"), Deed::Join(b"b"), Deed::Join(b"a")]),
            ),
        ],
        start: 8,
        lines: &[
            Line::Unserved(ONE, 0, Why::BadTopic),
            Line::Unserved(ONE, 0, Why::Forbidden),
            Line::Unserved(ONE, 1, Why::TooMany),
        ],
        taken: &[],
        phases: &[],
        entries: (6, 6),
        closed: &[],
        faults: 0,
    },
];
