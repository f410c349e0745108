use crate::fold_laws::*;
use crate::order_laws::*;
use crate::plain::*;
use crate::run_laws::*;
use std::test::*;
use wire_meaning::Opcode;
use ws_kinds::{Conn, Event, Handler, Kind, Left, Note, Orders, Phase, Recorder, Watch, Why};

const ONE: Conn = Conn(1);

const TWO: Conn = Conn(2);

/// A handler that answers nothing.
struct Silent;

impl Handler for Silent {
    ghost use Rattle.std.specs.Prelude.{◌≡◌, []};
    ghost use Rattle.ws_kinds.specs.OrderValue.{order_values};
    ghost use Rattle.std.proofs.Common.{zero-le};

    ghost State = { Unit {0} };

    ghost state = { λ _. tt };

    ghost after = { λ state _. state };

    ghost said = { λ _ _. [] };

    ghost said_few = { λ _ _. zero-le };

    fn on(&mut self, event: Event<'_>) {
        let _ = event;
    }

    fn orders<'m>(&'m self, event: Event<'m>, out: &mut Orders<'m>) {
        let _ = event;
        let _ = out;
    }
}

fn opened(conn: Conn, route: u8) -> Note<'static> {
    Note::Opened {
        conn,
        route,
        param: b"",
    }
}

fn text(conn: Conn, body: &'static [u8]) -> Note<'static> {
    Note::Message {
        conn,
        kind: Kind::Text,
        body,
    }
}

fn is_reply(item: &OwnedItem, octets: &[u8]) -> bool {
    match item {
        OwnedItem::Reply(text) => text.octets() == octets,
        OwnedItem::Whole(_, _) => false,
    }
}

fn is_frame(item: &OwnedItem, opcode: Opcode, octets: &[u8]) -> bool {
    match item {
        OwnedItem::Reply(_) => false,
        OwnedItem::Whole(other, payload) => *other == opcode && payload.octets() == octets,
    }
}

fn is_text(item: &OwnedItem, octets: &[u8]) -> bool {
    is_frame(item, Opcode::Begins(Kind::Text), octets)
}

/// A connection opens, sends a text, a ping and a close, and is finished.
#[test]
fn an_echo_opens_answers_and_closes(rt: HostRuntime) -> Result<(), Fail> {
    let notes = [
        Note::Accepted(ONE),
        Note::Given {
            conn: ONE,
            count: 144,
        },
        opened(ONE, 0),
        Note::Turn,
        text(ONE, b"Hello"),
        Note::Took {
            conn: ONE,
            offered: 7,
            took: 7,
        },
        Note::PingGot {
            conn: ONE,
            body: b"hi",
        },
        Note::PongGot {
            conn: ONE,
            body: b"",
        },
        Note::PeerClose {
            conn: ONE,
            code: 1000,
            reason: b"bye",
        },
        Note::Closed {
            conn: ONE,
            code: 1000,
            reason: b"bye",
        },
        Note::Gone {
            conn: ONE,
            left: Left::Finished,
        },
        Note::Turn,
    ];
    let line = plain_line(rt.alloc(), &notes, ONE, b"101")?;
    assert_eq!(rt; line.phase, Some(Phase::Gone));
    assert_eq!(rt; line.items.len(), 4);
    assert!(rt; is_reply(&line.items[0], b"101"));
    assert!(rt; is_text(&line.items[1], b"Hello"));
    assert!(rt; is_frame(&line.items[2], Opcode::Pong, b"hi"));
    assert!(rt; is_frame(&line.items[3], Opcode::Close, &[3, 232]));
    Ok(())
}

/// What one connection sends comes back to it alone, and a third one was never accepted.
#[test]
fn two_connections_by_a_recorder(rt: HostRuntime) -> Result<(), Fail> {
    let mut recorder = Recorder::new(rt.alloc());
    recorder.note(&Note::Accepted(ONE));
    recorder.note(&Note::Accepted(TWO));
    recorder.note(&opened(ONE, 0));
    recorder.note(&text(ONE, b"a"));
    recorder.note(&opened(TWO, 0));
    recorder.note(&text(TWO, b"b"));
    recorder.note(&text(ONE, b"c"));
    recorder.note(&Note::Turn);
    assert!(rt; recorder.whole());
    let notes = recorded_notes(rt.alloc(), &recorder)?;
    let first = plain_line(rt.alloc(), &notes, ONE, b"r")?;
    assert_eq!(rt; first.phase, Some(Phase::Open));
    assert_eq!(rt; first.items.len(), 3);
    assert!(rt; is_text(&first.items[1], b"a"));
    assert!(rt; is_text(&first.items[2], b"c"));
    let second = plain_line(rt.alloc(), &notes, TWO, b"r")?;
    assert_eq!(rt; second.items.len(), 2);
    assert!(rt; is_text(&second.items[1], b"b"));
    let third = plain_line(rt.alloc(), &notes, Conn(3), b"r")?;
    assert_eq!(rt; third.phase, None);
    assert_eq!(rt; third.items.len(), 0);
    Ok(())
}

/// A failure is answered by its code, a close without a code by an empty close frame, and each ends its connection.
#[test]
fn a_failure_and_an_empty_close(rt: HostRuntime) -> Result<(), Fail> {
    let notes = [
        Note::Accepted(ONE),
        opened(ONE, 0),
        Note::Accepted(TWO),
        opened(TWO, 0),
        Note::Failed {
            conn: ONE,
            code: 1002,
        },
        Note::PeerClose {
            conn: TWO,
            code: 1005,
            reason: b"",
        },
    ];
    let first = plain_line(rt.alloc(), &notes, ONE, b"r")?;
    assert_eq!(rt; first.phase, Some(Phase::Ending));
    assert_eq!(rt; first.items.len(), 2);
    assert!(rt; is_frame(&first.items[1], Opcode::Close, &[3, 234]));
    let second = plain_line(rt.alloc(), &notes, TWO, b"r")?;
    assert_eq!(rt; second.phase, Some(Phase::Ending));
    assert!(rt; second.items.len() == 2 && is_frame(&second.items[1], Opcode::Close, &[]));
    Ok(())
}

/// A refused head is answered by the text of its status.
#[test]
fn a_refused_head(rt: HostRuntime) -> Result<(), Fail> {
    let notes = [
        Note::Accepted(ONE),
        Note::Head {
            conn: ONE,
            status: 404,
        },
    ];
    let line = plain_line(rt.alloc(), &notes, ONE, b"r")?;
    assert_eq!(rt; line.phase, Some(Phase::Ending));
    assert_eq!(rt; line.items.len(), 1);
    let wanted = b"HTTP/1.1 404 Not Found\r\nConnection: close\r\nContent-Length: 0\r\n\r\n";
    assert!(rt; is_reply(&line.items[0], wanted));
    Ok(())
}

/// An order is not served where a note before the next event's says so, and only messages of route 0 are sent back.
#[test]
fn orders_that_are_not_served(rt: HostRuntime) -> Result<(), Fail> {
    let notes = [
        Note::Accepted(ONE),
        opened(ONE, 0),
        text(ONE, b"a"),
        text(ONE, b"b"),
        Note::Unserved {
            conn: ONE,
            order: 0,
            why: Why::NotOpen,
        },
        Note::Accepted(TWO),
        opened(TWO, 7),
        text(TWO, b"c"),
    ];
    let first = plain_line(rt.alloc(), &notes, ONE, b"r")?;
    assert_eq!(rt; first.items.len(), 2);
    assert!(rt; is_text(&first.items[1], b"a"));
    let second = plain_line(rt.alloc(), &notes, TWO, b"r")?;
    assert_eq!(rt; second.route, 7);
    assert_eq!(rt; second.items.len(), 1);
    Ok(())
}

/// How a connection stands to Open: before it, in it, or out of it with this code, of which the handler was not told or was told.
#[derive(Clone, Copy, PartialEq, Eq)]
enum Stands {
    Before,
    Open,
    Left(u16),
    Told,
}

/// A connection after a note of its own, where the handler closes nobody.
fn stands_after(stands: Stands, note: &Note<'_>) -> Stands {
    match stands {
        Stands::Before => match *note {
            Note::Opened { .. } => Stands::Open,
            _ => Stands::Before,
        },
        Stands::Open => match *note {
            Note::PeerClose { code, .. } => Stands::Left(code),
            Note::Failed { code, .. } => Stands::Left(code),
            Note::Gone { .. } => Stands::Left(1006),
            _ => Stands::Open,
        },
        Stands::Left(code) => match *note {
            Note::Closed { .. } => Stands::Told,
            _ => Stands::Left(code),
        },
        Stands::Told => Stands::Told,
    }
}

/// Whether a note is timely where the connection stands so: nothing comes from outside before the handler was told that it left Open,
/// and a Closed event has the code with which it did, and comes once.
fn is_timely(stands: Stands, note: &Note<'_>) -> bool {
    match *note {
        Note::Accepted(_) | Note::Busy(_) | Note::NoRoom(_) => !matches!(stands, Stands::Left(_)),
        Note::Given { .. } | Note::Tick => !matches!(stands, Stands::Left(_)),
        Note::Closed { code, .. } => stands == Stands::Left(code),
        _ => true,
    }
}

/// The place of the first note that is not timely. Notes that name a connection are of one, but for arrivals.
fn first_untimely(notes: &[Note<'_>]) -> Option<usize> {
    let mut stands = Stands::Before;
    for place in 0..notes.len() {
        if !is_timely(stands, &notes[place]) {
            return Some(place);
        }
        stands = stands_after(stands, &notes[place]);
    }
    None
}

/// The place of the first row that is answered otherwise.
fn other_place(rows: &[([Note<'static>; 6], Option<usize>)]) -> Option<usize> {
    for (place, (notes, wanted)) in rows.iter().enumerate() {
        if first_untimely(notes) != *wanted {
            return Some(place);
        }
    }
    None
}

fn closed(code: u16) -> Note<'static> {
    Note::Closed {
        conn: ONE,
        code,
        reason: b"",
    }
}

/// The handler is told of an end before anything further comes from outside, once, with its code, and not before the end.
#[test]
fn closed_events_in_time(rt: HostRuntime) -> Result<(), Fail> {
    let left = Note::Gone {
        conn: ONE,
        left: Left::LinkFailed,
    };
    let given = Note::Given {
        conn: ONE,
        count: 1,
    };
    let rows = [
        (
            [
                Note::Accepted(ONE),
                given,
                opened(ONE, 0),
                left,
                closed(1006),
                Note::Tick,
            ],
            None,
        ),
        (
            [
                Note::Accepted(ONE),
                given,
                opened(ONE, 0),
                left,
                Note::Tick,
                closed(1006),
            ],
            Some(4),
        ),
        (
            [
                Note::Accepted(ONE),
                given,
                opened(ONE, 0),
                left,
                Note::Busy(TWO),
                closed(1006),
            ],
            Some(4),
        ),
        (
            [
                Note::Accepted(ONE),
                given,
                opened(ONE, 0),
                left,
                Note::Turn,
                given,
            ],
            Some(5),
        ),
        (
            [
                Note::Accepted(ONE),
                given,
                opened(ONE, 0),
                closed(1006),
                left,
                Note::Turn,
            ],
            Some(3),
        ),
        (
            [
                Note::Accepted(ONE),
                given,
                opened(ONE, 0),
                left,
                closed(1000),
                Note::Turn,
            ],
            Some(4),
        ),
        (
            [
                Note::Accepted(ONE),
                given,
                opened(ONE, 0),
                left,
                closed(1006),
                closed(1006),
            ],
            Some(5),
        ),
    ];
    assert!(rt; other_place(&rows).is_none());
    Ok(())
}

/// The laws hold for a handler.
#[test]
fn laws_of_a_handler(rt: HostRuntime) -> Result<(), Fail> {
    let _ = rt;
    one_note::<Silent>();
    one_phase::<Silent>();
    one_row_of_items::<Silent>();
    one_event::<Silent>();
    events_come::<Silent>();
    state_is_of_events::<Silent>();
    items_come::<Silent>();
    gone_stays::<Silent>();
    conns_are_accepted::<Silent>();
    no_order_yet::<Silent>();
    note_within_orders::<Silent>();
    order_not_served::<Silent>();
    order_served::<Silent>();
    all_orders::<Silent>();
    serving_starts::<Silent>();
    serving_goes_on::<Silent>();
    serving_next::<Silent>();
    serving_refused::<Silent>();
    serving_ends::<Silent>();
    orders_stay_served::<Silent>();
    lived_stays::<Silent>();
    request_answered::<Silent>();
    carried_stays::<Silent>();
    lived_throughout::<Silent>();
    replies_of_opened::<Silent>();
    all_kept::<Silent>();
    one_sound::<Silent>();
    right_at_first::<Silent>();
    Ok(())
}
