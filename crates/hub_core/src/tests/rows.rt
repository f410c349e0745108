//! Calls for single connections, and messages.

use super::calls::{Call, Deed};
use super::scene::{Line, Row};
use super::{FIVE, FOUR, NINE, NOBODY, ONE, SIX, THREE, TWO};
use socket_core::Kept;
use ws_kinds::{Kind, Left, Note, Phase, Why};

/// The octets that the link of a connection took, to which messages of 1 and of 125 octets were sent.
const SENT: &[u8] =
    b"reply\x82\x01\xff\x81\x7daaaaaaaaaaaaaaaaaaaaaaaaaaaaaaaaaaaaaaaaaaaaaaaaaaaaaaaaaaaaaaaaaaaaaaaaaaaaaaaaaaaaaaaaaaaaaaaaaaaaaaaaaaaaaaaaaaaaaaaaaaaaa";

const JOIN: &[Deed<'static>] = &[Deed::Join(b"room")];

pub const CALLS: &[Row<'static>] = &[
    // no more connections are taken than there may be
    Row {
        failing: (0, 0),
        max_conns: 1,
        calls: &[],
        start: 0,
        lines: &[
            Line::Is(Note::Accepted(ONE)),
            Line::Is(Note::Busy(TWO)),
            Line::Is(Note::Busy(THREE)),
            Line::Is(Note::Busy(FOUR)),
            Line::Is(Note::Busy(FIVE)),
            Line::Is(Note::Busy(SIX)),
        ],
        taken: &[],
        phases: &[(ONE, Some(Phase::Head)), (TWO, None)],
        entries: (1, 1),
        closed: &[],
        faults: 0,
    },
    // each call notes what came
    Row {
        failing: (0, 0),
        max_conns: 6,
        calls: &[
            (ONE, Call::Admit),
            (TWO, Call::Refuse),
            (THREE, Call::Given),
            (FOUR, Call::Admit),
            (FIVE, Call::Admit),
            (SIX, Call::Admit),
            (ONE, Call::Ping),
            (ONE, Call::Pong),
            (ONE, Call::Writable),
            (TWO, Call::Writable),
            (
                ONE,
                Call::Orders(&[Deed::Send(FOUR, b"hi"), Deed::Send(NINE, b"no")]),
            ),
            (ONE, Call::Close(1001, b"bye")),
            (FOUR, Call::Failed),
            (FIVE, Call::Ended),
            (SIX, Call::Lost),
            (ONE, Call::Tick),
            (ONE, Call::Turn),
        ],
        start: 6,
        lines: &[
            Line::Opened(ONE),
            Line::Took(ONE, 5),
            Line::Is(Note::Head {
                conn: TWO,
                status: 404,
            }),
            Line::Took(TWO, 4),
            Line::Is(Note::Given {
                conn: THREE,
                count: 7,
            }),
            Line::Opened(FOUR),
            Line::Took(FOUR, 5),
            Line::Opened(FIVE),
            Line::Took(FIVE, 5),
            Line::Opened(SIX),
            Line::Took(SIX, 5),
            Line::Is(Note::PingGot {
                conn: ONE,
                body: b"hi",
            }),
            Line::Took(ONE, 4),
            Line::Is(Note::PongGot {
                conn: ONE,
                body: b"ho",
            }),
            Line::Gone(TWO, Left::Finished),
            Line::Took(FOUR, 4),
            Line::Unserved(ONE, 1, Why::Absent),
            Line::Is(Note::PeerClose {
                conn: ONE,
                code: 1001,
                reason: b"bye",
            }),
            Line::Took(ONE, 4),
            Line::Is(Note::Failed {
                conn: FOUR,
                code: 1002,
            }),
            Line::Took(FOUR, 4),
            Line::Gone(FIVE, Left::PeerEnd),
            Line::Gone(SIX, Left::LinkFailed),
            Line::Is(Note::Tick),
            Line::Gone(ONE, Left::Finished),
            Line::Gone(FOUR, Left::Finished),
            Line::Is(Note::Turn),
        ],
        taken: &[
            (ONE, b"reply\x8a\x02hi\x88\x02\x03\xe9"),
            (TWO, b"none"),
            (THREE, b""),
            (FOUR, b"reply\x81\x02hi\x88\x02\x03\xea"),
        ],
        phases: &[
            (ONE, Some(Phase::Gone)),
            (TWO, None),
            (THREE, Some(Phase::Head)),
        ],
        entries: (5, 1),
        closed: &[
            (ONE, 1001, b"bye"),
            (FOUR, 1002, b""),
            (FIVE, 1006, b""),
            (SIX, 1006, b""),
        ],
        faults: 0,
    },
    // closed events are handed out once, the least number first
    Row {
        failing: (0, 0),
        max_conns: 6,
        calls: &[
            (ONE, Call::Admit),
            (TWO, Call::Admit),
            (THREE, Call::Admit),
            (FOUR, Call::Admit),
            (FOUR, Call::Ended),
            (THREE, Call::Failed),
            (TWO, Call::Close(1005, b"")),
            (ONE, Call::Close(1001, b"bye")),
            (ONE, Call::Turn),
        ],
        start: 23,
        lines: &[Line::Gone(THREE, Left::Finished), Line::Is(Note::Turn)],
        taken: &[],
        phases: &[(FIVE, Some(Phase::Head))],
        entries: (6, 2),
        closed: &[
            (ONE, 1001, b"bye"),
            (TWO, 1005, b""),
            (THREE, 1002, b""),
            (FOUR, 1006, b""),
        ],
        faults: 0,
    },
    // a send is refused for a reason
    Row {
        failing: (0, 0),
        max_conns: 6,
        calls: &[
            (ONE, Call::Admit),
            (NINE, Call::Send(Kind::Text, b"hi", Err(Why::Absent))),
            (TWO, Call::Send(Kind::Text, b"hi", Err(Why::NotOpen))),
            (ONE, Call::Send(Kind::Text, b"\xff", Err(Why::BadText))),
            (ONE, Call::Send(Kind::Text, &[97; 126], Err(Why::TooBig))),
            (ONE, Call::Send(Kind::Binary, b"\xff", Ok(Kept::Clear))),
            (ONE, Call::Send(Kind::Text, &[97; 125], Ok(Kept::Clear))),
        ],
        start: 6,
        lines: &[
            Line::Opened(ONE),
            Line::Took(ONE, 5),
            Line::Took(ONE, 3),
            Line::Took(ONE, 127),
        ],
        taken: &[(ONE, SENT)],
        phases: &[(ONE, Some(Phase::Open))],
        entries: (6, 6),
        closed: &[],
        faults: 0,
    },
    // a write that fails ends its own connection alone
    Row {
        failing: (6, 9),
        max_conns: 6,
        calls: &[
            (ONE, Call::Admit),
            (TWO, Call::Admit),
            (THREE, Call::Admit),
            (FOUR, Call::Admit),
            (ONE, Call::Orders(JOIN)),
            (THREE, Call::Orders(JOIN)),
            (FOUR, Call::Orders(JOIN)),
            (ONE, Call::Send(Kind::Text, b"hi", Ok(Kept::Clear))),
            (TWO, Call::Send(Kind::Text, b"hi", Ok(Kept::Failed))),
            (THREE, Call::Send(Kind::Text, b"hi", Ok(Kept::Clear))),
            (NOBODY, Call::Publish(b"room", Kind::Text, b"ho", Ok(3))),
            (FOUR, Call::Publish(b"room", Kind::Text, b"hu", Ok(1))),
        ],
        start: 14,
        lines: &[
            Line::Took(ONE, 4),
            Line::Gone(TWO, Left::LinkFailed),
            Line::Took(THREE, 4),
            Line::Took(ONE, 4),
            Line::Gone(THREE, Left::LinkFailed),
            Line::Took(FOUR, 4),
            Line::Took(ONE, 4),
        ],
        taken: &[
            (TWO, b"reply"),
            (THREE, b"reply\x81\x02hi"),
            (FOUR, b"reply\x81\x02ho"),
        ],
        phases: &[(TWO, Some(Phase::Gone)), (FOUR, Some(Phase::Open))],
        entries: (6, 4),
        closed: &[(TWO, 1006, b""), (THREE, 1006, b"")],
        faults: 2,
    },
    // senders stand on the clauses alone
    Row {
        failing: (0, 0),
        max_conns: 6,
        calls: &[
            (ONE, Call::Admit),
            (TWO, Call::Admit),
            (THREE, Call::Admit),
            (ONE, Call::Both(TWO)),
            (ONE, Call::Lose(THREE)),
        ],
        start: 12,
        lines: &[
            Line::Took(ONE, 4),
            Line::Took(TWO, 4),
            Line::Is(Note::Turn),
            Line::Took(ONE, 4),
            Line::Gone(THREE, Left::LinkFailed),
            Line::Is(Note::Turn),
        ],
        taken: &[],
        phases: &[],
        entries: (6, 5),
        closed: &[(THREE, 1006, b"")],
        faults: 0,
    },
];
