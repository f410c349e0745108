//! Turns over a net in memory.

ghost use Rattle.std.specs.Prelude.{◌≡◌, ◌≤◌, length};

use super::*;
use hub_core::Hub;
use link_trait::{Act, Outside};
use mem_net::{MemNet, Schedule};
use route_table::Routes;
use std::process::Abort;
use std::test::*;
use topic_guard::{Test, TopicGuard, TopicRule};
use ws_kinds::{
    Bytes, Config, Conn, Event, Handler, Kind, Left, Name, Note, Order, Orders, Recorder, Tally,
    What, Why,
};

const ONE: Conn = Conn(1);

const TWO: Conn = Conn(2);

/// The head of a request for an upgrade, with the key of RFC 6455, section 1.3.
const HEAD: &[u8] =
    b"GET /echo HTTP/1.1\r\nHost: a\r\nUpgrade: websocket\r\nConnection: Upgrade\r\nSec-WebSocket-Key: dGhlIHNhbXBsZSBub25jZQ==\r\nSec-WebSocket-Version: 13\r\n\r\n";

/// The reply to it.
const REPLY: &[u8] =
    b"HTTP/1.1 101 Switching Protocols\r\nUpgrade: websocket\r\nConnection: Upgrade\r\nSec-WebSocket-Accept: s3pPLMBiTxaQ9kYGzzhZRbK+xOo=\r\n\r\n";

/// The masked text `Hello` of RFC 6455, section 5.7, and its answer.
const HELLO: &[u8] = b"\x81\x85\x37\xfa\x21\x3d\x7f\x9f\x4d\x51\x58";

const HELLO_BACK: &[u8] = b"\x81\x05Hello";

/// A handler that sends each message of route 0 back.
#[derive(Drop)]
struct Echo;

impl Handler for Echo {
    ghost use Rattle.std.specs.Prelude.{⊤};
    ghost use Rattle.std.proofs.Common.{arith, rules};
    ghost use Rattle.run_meaning.specs.Echo.{echo_said};

    ghost State = { ⊤ };

    ghost state = { λ echo. tt {0} };

    ghost after = { λ state _. state };

    ghost said = { λ _ event. echo_said event };

    ghost said_few = { λ now event. Prim.grind (arith, rules) };

    fn on(&mut self, event: Event<'_>) {
        let _ = event;
    }

    fn orders<'m>(&'m self, event: Event<'m>, out: &mut Orders<'m>) {
        if event.route != 0 {
            return;
        }
        if let What::Message { kind, body } = event.what {
            out.push(Order::Send {
                to: event.conn,
                kind,
                body,
            });
        }
    }
}

/// A handler with a state: of every second event that is a message of route 0, it sends the message back.
#[derive(Drop)]
struct EverySecond {
    sends: bool,
}

impl Handler for EverySecond {
    ghost use Rattle.std.specs.Prelude.{Bool, not, [], if◌then◌else◌};
    ghost use Rattle.std.proofs.Common.{arith, rules};
    ghost use Rattle.run_meaning.specs.Echo.{echo_said};

    ghost State = { Bool };

    ghost state = { λ this. this.sends };

    ghost after = { λ sends _. not sends };

    ghost said = { λ sends event. if sends then echo_said event else [] };

    ghost said_few = { λ now event. Prim.grind (arith, rules) };

    fn on(&mut self, event: Event<'_>) {
        let _ = event;
        self.sends = !self.sends;
    }

    fn orders<'m>(&'m self, event: Event<'m>, out: &mut Orders<'m>) {
        if !self.sends || event.route != 0 {
            return;
        }
        if let What::Message { kind, body } = event.what {
            out.push(Order::Send {
                to: event.conn,
                kind,
                body,
            });
        }
    }
}

/// A handler that answers each event by a subscription and a publication.
#[derive(Drop)]
struct Announcer;

impl Handler for Announcer {
    ghost use Rattle.std.specs.Prelude.{⊤, [], ◌∷◌, codes};
    ghost use Rattle.std.proofs.Common.{arith, rules};
    ghost use Rattle.ws_kinds.specs.declared.kind.Kind.TheVariants.{Text};
    ghost use Rattle.ws_kinds.specs.OrderValue.{subscribe, publish};

    ghost State = { ⊤ };

    ghost state = { λ announcer. tt {0} };

    ghost after = { λ state _. state };

    ghost said = { λ _ event. subscribe (codes "all") ∷ publish (codes "all") Text (codes "news") ∷ [] };

    ghost said_few = { λ now event. Prim.grind (arith, rules) };

    fn on(&mut self, event: Event<'_>) {
        let _ = event;
    }

    fn orders<'m>(&'m self, event: Event<'m>, out: &mut Orders<'m>) {
        let _ = event;
        let topic = b"all";
        let kind = Kind::Text;
        let body = b"news";
        out.push(Order::Subscribe { topic });
        out.push(Order::Publish { topic, kind, body });
    }
}

/// A handler that answers each event by two closes.
#[derive(Drop)]
struct Closer;

impl Handler for Closer {
    ghost use Rattle.std.specs.Prelude.{⊤, [], ◌∷◌, codes};
    ghost use Rattle.std.proofs.Common.{arith, rules};
    ghost use Rattle.ws_kinds.specs.OrderValue.{close};

    ghost State = { ⊤ };

    ghost state = { λ closer. tt {0} };

    ghost after = { λ state _. state };

    ghost said = { λ _ event. close 1000 (codes "bye") ∷ close 1001 [] ∷ [] };

    ghost said_few = { λ now event. Prim.grind (arith, rules) };

    fn on(&mut self, event: Event<'_>) {
        let _ = event;
    }

    fn orders<'m>(&'m self, event: Event<'m>, out: &mut Orders<'m>) {
        let _ = event;
        out.push(Order::Close {
            code: 1000,
            reason: b"bye",
        });
        out.push(Order::Close {
            code: 1001,
            reason: b"",
        });
    }
}

/// An act of a schedule.
#[derive(Clone, Copy)]
enum Row<'a> {
    Arrive(Conn),
    Octets(Conn, &'a [u8]),
    End(Conn),
    Turn,
    Tick,
}

fn act_of(rt: &HostRuntime, row: Row<'_>) -> Result<Act, Fail> {
    match row {
        Row::Arrive(conn) => Ok(Act::Arrive { conn, credit: None }),
        Row::Octets(conn, octets) => {
            let octets = Bytes::of(rt.alloc(), octets).ok().ok_or("memory")?;
            Ok(Act::Octets { conn, octets })
        }
        Row::End(conn) => Ok(Act::End(conn)),
        Row::Turn => Ok(Act::Turn),
        Row::Tick => Ok(Act::Tick),
    }
}

fn schedule_of(rt: &HostRuntime, rows: &[Row<'_>]) -> Result<Schedule, Fail> {
    let mut schedule = Schedule::new(rt.alloc());
    for row in rows {
        schedule.push(act_of(rt, *row)?).ok().ok_or("memory")?;
    }
    Ok(schedule)
}

/// A net that follows these acts.
fn net_of(rt: &HostRuntime, rows: &[Row<'_>]) -> Result<MemNet, Fail> {
    let schedule = schedule_of(rt, rows)?;
    if !schedule.sound() {
        return Err(Fail::new("the schedule"));
    }
    Ok(MemNet::new(rt.alloc(), schedule).ok().ok_or("memory")?)
}

/// Runs a handler with one route and this guard of topics over these acts.
fn run_with<H: Handler>(
    rt: &HostRuntime,
    handler: &mut H,
    guard: &TopicGuard,
    max_conns: u32,
    rows: &[Row<'_>],
    turns: u64,
) -> Result<(Outside<MemNet, Recorder>, Ran), Fail> {
    let config = Config::checked(16_384, 65_536, 30, 60, 10, max_conns).ok_or("a configuration")?;
    let Ok(mut hub) = Hub::new(rt.alloc(), config) else {
        return Err(Fail::new("memory"));
    };
    let mut intakes = Intakes::new(rt.alloc(), config.max_message());
    let mut routes = Routes::new(rt.alloc());
    routes.add("/echo", b"").ok().ok_or("the route")?;
    let mut out = Outside {
        net: net_of(rt, rows)?,
        watch: Recorder::new(rt.alloc()),
        tally: Tally::new(),
    };
    let ran = run(
        &mut hub,
        &mut intakes,
        &routes,
        &mut out,
        handler,
        guard,
        turns,
    );
    Ok((out, ran))
}

/// Checks that these notes were told and no others.
fn expect_notes(rt: &impl Abort, watch: &Recorder, notes: &[Note<'_>]) {
    assert!(rt; watch.whole());
    for place in 0..watch.count() {
        if place < notes.len() {
            assert_eq!(rt; watch.at(place), notes[place]);
        }
    }
    assert_eq!(rt; watch.count(), notes.len());
}

fn given(conn: Conn, count: u64) -> Note<'static> {
    Note::Given { conn, count }
}

fn took(conn: Conn, count: u64) -> Note<'static> {
    let offered = count;
    let took = count;
    Note::Took {
        conn,
        offered,
        took,
    }
}

fn opened(conn: Conn) -> Note<'static> {
    let route = 0;
    let param = b"";
    Note::Opened { conn, route, param }
}

fn not_open(conn: Conn, order: u8) -> Note<'static> {
    let why = Why::NotOpen;
    Note::Unserved { conn, order, why }
}

fn forbidden(conn: Conn, order: u8) -> Note<'static> {
    let why = Why::Forbidden;
    Note::Unserved { conn, order, why }
}

/// The name of these octets.
fn name_of(octets: &[u8]) -> Name
    requires { length octets.now ≤ 64 }
    ensures { result.items ≡ octets.now }
{
    let mut name = Name::new();
    name.try_extend_from_slice(octets).unwrap();
    name
}

/// What an echo with so many connections at most tells over these acts, and how its run ends.
#[derive(Drop)]
struct Case<'a> {
    max_conns: u32,
    turns: u64,
    rows: &'a [Row<'a>],
    ran: Ran,
    notes: &'a [Note<'a>],
}

/// The reply to a head, and a message behind it.
fn reply_and_hello(rt: &HostRuntime) -> Result<Vec<u8>, Fail> {
    let mut all = REPLY.to_vec(rt.alloc())?;
    all.extend_from_slice(HELLO_BACK)?;
    Ok(all)
}

#[test]
fn a_head_in_pieces_and_a_message_are_answered(rt: HostRuntime) -> Result<(), Fail> {
    let test: Test = Box::new(rt.alloc(), |_topic: &[u8]| true)?;
    let guard = TopicGuard::new(TopicRule::All, test);
    let mut last = HEAD[142..].to_vec(rt.alloc())?;
    last.extend_from_slice(HELLO)?;
    let conn = ONE;
    let kind = Kind::Text;
    let body = b"Hello";
    let case = Case {
        max_conns: 2,
        turns: 9,
        rows: &[
            Row::Arrive(ONE),
            Row::Octets(ONE, &HEAD[..40]),
            Row::Octets(ONE, &HEAD[40..142]),
            Row::Turn,
            Row::Octets(ONE, &last),
        ],
        ran: Ran::Stopped(2),
        notes: &[
            Note::Accepted(ONE),
            given(ONE, 40),
            given(ONE, 102),
            Note::Turn,
            given(ONE, 13),
            opened(ONE),
            took(ONE, 129),
            Note::Message { conn, kind, body },
            took(ONE, 7),
            Note::Turn,
        ],
    };
    let (out, ran) = run_with(
        &rt,
        &mut Echo,
        &guard,
        case.max_conns,
        case.rows,
        case.turns,
    )?;
    assert_eq!(rt; ran, case.ran);
    expect_notes(&rt, &out.watch, case.notes);
    assert_eq!(rt; out.net.taken(ONE), reply_and_hello(&rt)?.as_slice());
    Ok(())
}

#[test]
fn of_two_closes_in_the_answer_to_an_opening_one_is_served(rt: HostRuntime) -> Result<(), Fail> {
    let test: Test = Box::new(rt.alloc(), |_topic: &[u8]| true)?;
    let guard = TopicGuard::new(TopicRule::All, test);
    let notes = [
        Note::Accepted(ONE),
        given(ONE, 144),
        opened(ONE),
        took(ONE, 129),
        took(ONE, 7),
        not_open(ONE, 1),
        Note::Closed {
            conn: ONE,
            code: 1000,
            reason: b"bye",
        },
        not_open(ONE, 0),
        not_open(ONE, 1),
        Note::Turn,
    ];
    let rows = [Row::Arrive(ONE), Row::Octets(ONE, HEAD)];
    let (out, ran) = run_with(&rt, &mut Closer, &guard, 2, &rows, 1)?;
    assert_eq!(rt; ran, Ran::Stopped(1));
    expect_notes(&rt, &out.watch, &notes);
    assert!(rt; out.net.taken(ONE).ends_with(b"\x88\x05\x03\xe8bye"));
    Ok(())
}

#[test]
fn the_answer_to_a_closed_event_is_served(rt: HostRuntime) -> Result<(), Fail> {
    let test: Test = Box::new(rt.alloc(), |_topic: &[u8]| true)?;
    let guard = TopicGuard::new(TopicRule::All, test);
    let rows = [
        Row::Arrive(ONE),
        Row::Octets(ONE, HEAD),
        Row::Arrive(TWO),
        Row::Octets(TWO, HEAD),
        Row::Turn,
        Row::End(ONE),
    ];
    let notes = [
        Note::Accepted(ONE),
        given(ONE, 144),
        opened(ONE),
        took(ONE, 129),
        Note::Accepted(TWO),
        given(TWO, 144),
        opened(TWO),
        took(TWO, 129),
        took(ONE, 6),
        Note::Turn,
        Note::Gone {
            conn: ONE,
            left: Left::PeerEnd,
        },
        Note::Closed {
            conn: ONE,
            code: 1006,
            reason: b"",
        },
        Note::Unserved {
            conn: ONE,
            order: 0,
            why: Why::NotOpen,
        },
        took(TWO, 6),
        Note::Turn,
    ];
    let (out, ran) = run_with(&rt, &mut Announcer, &guard, 2, &rows, 9)?;
    assert_eq!(rt; ran, Ran::Stopped(2));
    expect_notes(&rt, &out.watch, &notes);
    Ok(())
}

#[test]
fn each_way_to_leave_is_told(rt: HostRuntime) -> Result<(), Fail> {
    let test: Test = Box::new(rt.alloc(), |_topic: &[u8]| true)?;
    let guard = TopicGuard::new(TopicRule::All, test);
    let conn = ONE;
    let reason = b"";
    let cases = [
        // the peer closes
        Case {
            max_conns: 2,
            turns: 9,
            rows: &[
                Row::Arrive(ONE),
                Row::Octets(ONE, HEAD),
                Row::Octets(ONE, b"\x88\x82\x00\x00\x00\x00\x03\xe9"),
            ],
            ran: Ran::Stopped(1),
            notes: &[
                Note::Accepted(ONE),
                given(ONE, 144),
                opened(ONE),
                took(ONE, 129),
                given(ONE, 8),
                Note::PeerClose {
                    conn,
                    code: 1001,
                    reason,
                },
                took(ONE, 4),
                Note::Closed {
                    conn,
                    code: 1001,
                    reason,
                },
                Note::Gone {
                    conn,
                    left: Left::Finished,
                },
                Note::Turn,
            ],
        },
        // the link ends in the head
        Case {
            max_conns: 2,
            turns: 9,
            rows: &[
                Row::Arrive(ONE),
                Row::Octets(ONE, &HEAD[..40]),
                Row::End(ONE),
            ],
            ran: Ran::Stopped(1),
            notes: &[
                Note::Accepted(ONE),
                given(ONE, 40),
                Note::Gone {
                    conn,
                    left: Left::PeerEnd,
                },
                Note::Turn,
            ],
        },
        // a connection too many
        Case {
            max_conns: 1,
            turns: 1,
            rows: &[Row::Arrive(ONE), Row::Arrive(TWO), Row::Tick],
            ran: Ran::Stopped(1),
            notes: &[Note::Accepted(ONE), Note::Busy(TWO), Note::Tick, Note::Turn],
        },
        // a head that is refused with 66 octets
        Case {
            max_conns: 1,
            turns: 1,
            rows: &[
                Row::Arrive(ONE),
                Row::Octets(ONE, b"GET / HTTP/1.1\r\n\r\n"),
                Row::Turn,
            ],
            ran: Ran::Spent,
            notes: &[
                Note::Accepted(ONE),
                given(ONE, 18),
                Note::Head { conn, status: 400 },
                took(ONE, 66),
                Note::Gone {
                    conn,
                    left: Left::Finished,
                },
                Note::Turn,
            ],
        },
        // behind the first fragment of a text, a frame that has no mask
        Case {
            max_conns: 2,
            turns: 9,
            rows: &[
                Row::Arrive(ONE),
                Row::Octets(ONE, HEAD),
                Row::Octets(ONE, b"\x01\x81\x00\x00\x00\x00H\x80\x00"),
                Row::Octets(ONE, HELLO),
            ],
            ran: Ran::Stopped(1),
            notes: &[
                Note::Accepted(ONE),
                given(ONE, 144),
                opened(ONE),
                took(ONE, 129),
                given(ONE, 9),
                Note::Failed { conn, code: 1002 },
                took(ONE, 4),
                Note::Closed {
                    conn,
                    code: 1002,
                    reason,
                },
                Note::Gone {
                    conn,
                    left: Left::Finished,
                },
                Note::Turn,
            ],
        },
    ];
    for case in &cases {
        let (out, ran) = run_with(
            &rt,
            &mut Echo,
            &guard,
            case.max_conns,
            case.rows,
            case.turns,
        )?;
        assert_eq!(rt; ran, case.ran);
        expect_notes(&rt, &out.watch, case.notes);
    }
    Ok(())
}

/// Two connections send their messages, each cut at each place, one piece after another.
#[test]
fn connections_interleave_at_every_place(rt: HostRuntime) -> Result<(), Fail> {
    let test: Test = Box::new(rt.alloc(), |_topic: &[u8]| true)?;
    let guard = TopicGuard::new(TopicRule::All, test);
    let all = reply_and_hello(&rt)?;
    for cut in 1..HELLO.len() {
        let (front, behind) = HELLO.split_at(cut.min(HELLO.len()));
        let rows = [
            Row::Arrive(ONE),
            Row::Arrive(TWO),
            Row::Octets(ONE, HEAD),
            Row::Octets(TWO, HEAD),
            Row::Octets(ONE, front),
            Row::Octets(TWO, front),
            Row::Octets(ONE, behind),
            Row::Octets(TWO, behind),
        ];
        let (out, ran) = run_with(&rt, &mut Echo, &guard, 2, &rows, 9)?;
        assert_eq!(rt; ran, Ran::Stopped(1));
        assert_eq!(rt; out.net.taken(ONE), all.as_slice());
        assert_eq!(rt; out.net.taken(TWO), all.as_slice());
    }
    Ok(())
}

/// The Opened event is the first one: it and the second message are those at which messages are sent.
#[test]
fn a_handler_keeps_its_state_between_turns(rt: HostRuntime) -> Result<(), Fail> {
    let test: Test = Box::new(rt.alloc(), |_topic: &[u8]| true)?;
    let guard = TopicGuard::new(TopicRule::All, test);
    let rows = [
        Row::Arrive(ONE),
        Row::Octets(ONE, HEAD),
        Row::Octets(ONE, HELLO),
        Row::Turn,
        Row::Octets(ONE, HELLO),
        Row::Turn,
        Row::Octets(ONE, HELLO),
    ];
    let mut handler = EverySecond { sends: false };
    let (out, ran) = run_with(&rt, &mut handler, &guard, 2, &rows, 9)?;
    assert_eq!(rt; ran, Ran::Stopped(3));
    assert_eq!(rt; handler.sends, false);
    assert_eq!(rt; out.net.taken(ONE), reply_and_hello(&rt)?.as_slice());
    Ok(())
}

/// What is forbidden is not subscribed to, also where a publication of the same answer is served.
#[test]
fn orders_are_served_as_the_guard_allows(rt: HostRuntime) -> Result<(), Fail> {
    let test: Test = Box::new(rt.alloc(), |topic: &[u8]| topic.starts_with(b"pub/"))?;
    let guard = TopicGuard::new(TopicRule::Only(name_of(b"pub/")), test);
    let rows = [
        Row::Arrive(ONE),
        Row::Octets(ONE, HEAD),
        Row::Arrive(TWO),
        Row::Octets(TWO, HEAD),
    ];
    let notes = [
        Note::Accepted(ONE),
        given(ONE, 144),
        opened(ONE),
        took(ONE, 129),
        forbidden(ONE, 0),
        Note::Accepted(TWO),
        given(TWO, 144),
        opened(TWO),
        took(TWO, 129),
        forbidden(TWO, 0),
        Note::Turn,
    ];
    let (out, ran) = run_with(&rt, &mut Announcer, &guard, 2, &rows, 1)?;
    assert_eq!(rt; ran, Ran::Stopped(1));
    expect_notes(&rt, &out.watch, &notes);
    Ok(())
}
