//! A net in memory, stepped by hand, and the schedules that it follows.

ghost use Rattle.std.specs.Prelude.{◌≡◌, ◌≢◌, ◌<◌, ◌≤◌, ◌++◌, ℕ, true, length, take, IfSome, IfNone};
ghost use Rattle.ws_kinds.specs.NoteValue.{took};
ghost use Rattle.ws_kinds.specs.Watch.{IsNoted};
ghost use Rattle.link_trait.specs.Link.{Rose};
ghost use Rattle.mem_net.specs.Acts as acts;

use crate::*;
use link_trait::{Act, Listening, Net, NetEvent, NetRead, NetWrote, Outside};
use std::alloc::Global;
use std::test::*;
use ws_kinds::{Bytes, Conn, Note, Recorder, Tally, Watch};

const ONE: Conn = Conn(1);

const TWO: Conn = Conn(2);

/// An act, as the tables name it.
#[derive(Clone, Copy)]
enum Step {
    Arrive(u64),
    ArriveWith(u64, u32),
    Octets(u64, &'static [u8]),
    End(u64),
    ReadFails(u64),
    Room(u64, u32),
    WriteFails(u64),
    Tick,
    Turn,
}

/// What is done once Readable is told.
#[derive(Clone, Copy)]
enum Then {
    Wait,
    Read,
    ReadAndShut,
}

/// What is done, what came next, and what one read of at most 4 octets gave.
type Told = (Then, NetEvent, Option<NetRead>, [u8; 4]);

use NetEvent::{Accept, Readable, Stop, Writable};
use Step::{Arrive, ArriveWith, End, Octets, ReadFails, Room, Tick, Turn, WriteFails};
use Then::{Read, ReadAndShut, Wait};

/// Schedules, and what a net tells that follows them.
const RUNS: &[(&[Step], &[Told])] = &[
    // acts are told in order, and a read leaves what does not fit
    (
        &[
            Arrive(1),
            Octets(1, b"abcdef"),
            Tick,
            Arrive(2),
            Octets(1, b"g"),
            End(1),
            Octets(2, b"h"),
            ReadFails(2),
            Turn,
        ],
        &[
            (Read, Accept(ONE), None, [0; 4]),
            (Read, Readable(ONE), Some(NetRead::Octets(4)), *b"abcd"),
            (Read, Readable(ONE), Some(NetRead::Octets(2)), *b"ef\0\0"),
            (Read, NetEvent::Tick, None, [0; 4]),
            (Read, Accept(TWO), None, [0; 4]),
            (Read, Readable(ONE), Some(NetRead::Octets(1)), *b"g\0\0\0"),
            (Read, Readable(ONE), Some(NetRead::End), [0; 4]),
            (Read, Readable(TWO), Some(NetRead::Octets(1)), *b"h\0\0\0"),
            (Read, Readable(TWO), Some(NetRead::Failed), [0; 4]),
            (Read, NetEvent::Turn, None, [0; 4]),
            (Read, Stop, None, [0; 4]),
            (Read, Stop, None, [0; 4]),
        ],
    ),
    // acts on a connection that is shut are passed over
    (
        &[
            Arrive(1),
            Octets(1, b"abcdef"),
            Octets(1, b"g"),
            End(1),
            Arrive(2),
        ],
        &[
            (Read, Accept(ONE), None, [0; 4]),
            (
                ReadAndShut,
                Readable(ONE),
                Some(NetRead::Octets(4)),
                *b"abcd",
            ),
            (Read, Accept(TWO), None, [0; 4]),
            (Read, Stop, None, [0; 4]),
        ],
    ),
    // and those between them are told
    (
        &[
            Arrive(1),
            Arrive(2),
            Octets(1, b"ab"),
            Octets(2, b"c"),
            Octets(1, b"d"),
            Octets(2, b"e"),
            End(1),
            Tick,
        ],
        &[
            (Read, Accept(ONE), None, [0; 4]),
            (Read, Accept(TWO), None, [0; 4]),
            (
                ReadAndShut,
                Readable(ONE),
                Some(NetRead::Octets(2)),
                *b"ab\0\0",
            ),
            (Read, Readable(TWO), Some(NetRead::Octets(1)), *b"c\0\0\0"),
            (Read, Readable(TWO), Some(NetRead::Octets(1)), *b"e\0\0\0"),
            (Read, NetEvent::Tick, None, [0; 4]),
            (Read, Stop, None, [0; 4]),
        ],
    ),
    // what is not read waits
    (
        &[Arrive(1), Octets(1, b"a"), Octets(1, b"b"), End(1), Turn],
        &[
            (Read, Accept(ONE), None, [0; 4]),
            (Wait, Readable(ONE), None, [0; 4]),
            (Wait, Readable(ONE), None, [0; 4]),
            (Read, Readable(ONE), Some(NetRead::Octets(2)), *b"ab\0\0"),
            (Read, Readable(ONE), Some(NetRead::End), [0; 4]),
            (Read, NetEvent::Turn, None, [0; 4]),
            (Read, Stop, None, [0; 4]),
        ],
    ),
];

/// What comes next, what is then offered to its connection, what is answered, and whether the connection is shut after it.
type Offer = (NetEvent, &'static [u8], Option<NetWrote>, bool);

use NetWrote::Took;

/// Schedules, what is offered to their links, and what the first link took in the end.
const OFFERS: &[(&[Step], &[Offer], &[u8])] = &[
    // a link without a limit, which room does not change
    (
        &[Arrive(1), Room(1, 1)],
        &[
            (Accept(ONE), b"ab", Some(Took(2)), false),
            (Writable(ONE), b"cde", Some(Took(3)), false),
            (Stop, b"", None, false),
        ],
        b"abcde",
    ),
    // a link takes nothing until it has room, and then so much
    (
        &[ArriveWith(1, 0), Room(1, 2), Room(1, 4_294_967_295)],
        &[
            (Accept(ONE), b"ab", Some(Took(0)), false),
            (Writable(ONE), b"abc", Some(Took(2)), false),
            (Writable(ONE), b"cde", Some(Took(3)), false),
            (Stop, b"", None, false),
        ],
        b"abcde",
    ),
    // room adds to what is left
    (
        &[ArriveWith(1, 2), Room(1, 1), Tick],
        &[
            (Accept(ONE), b"a", Some(Took(1)), false),
            (Writable(ONE), b"bcd", Some(Took(2)), false),
            (NetEvent::Tick, b"", None, false),
            (Stop, b"", None, false),
        ],
        b"abc",
    ),
    // the sum has more than 32 bits
    (
        &[
            ArriveWith(1, 4_294_967_295),
            Room(1, 1),
            Room(1, 4_294_967_295),
        ],
        &[
            (Accept(ONE), b"ab", Some(Took(2)), false),
            (Writable(ONE), b"cd", Some(Took(2)), false),
            (Writable(ONE), b"ef", Some(Took(2)), false),
            (Stop, b"", None, false),
        ],
        b"abcdef",
    ),
    // acts on a connection that is shut are passed over
    (
        &[
            ArriveWith(1, 1),
            Arrive(2),
            Room(1, 5),
            WriteFails(1),
            Room(2, 1),
        ],
        &[
            (Accept(ONE), b"ab", Some(Took(1)), true),
            (Accept(TWO), b"c", Some(Took(1)), false),
            (Writable(TWO), b"d", Some(Took(1)), false),
            (Stop, b"", None, false),
        ],
        b"a",
    ),
    // writes fail from an act on, whatever room there is, and those of no other connection
    (
        &[
            ArriveWith(1, 3),
            Arrive(2),
            WriteFails(1),
            Room(1, 9),
            Room(2, 1),
        ],
        &[
            (Accept(ONE), b"ab", Some(Took(2)), false),
            (Accept(TWO), b"", None, false),
            (Writable(ONE), b"c", Some(NetWrote::Failed), false),
            (Writable(ONE), b"c", Some(NetWrote::Failed), false),
            (Writable(TWO), b"d", Some(Took(1)), false),
            (Stop, b"", None, false),
        ],
        b"ab",
    ),
];

/// Schedules, and whether they are sound.
const SCHEDULES: &[(&[Step], bool)] = &[
    // connections arrive with rising numbers
    (&[Arrive(1)], true),
    (&[Arrive(4_294_967_295)], true),
    (&[Arrive(1), Arrive(3), Arrive(4)], true),
    (&[Arrive(0)], false),
    (&[Arrive(4_294_967_296)], false),
    (&[Arrive(1), Arrive(3), Arrive(3)], false),
    (&[Arrive(1), Arrive(3), Arrive(2)], false),
    // other acts name a connection that arrived
    (&[Arrive(1), Arrive(2), Octets(1, b"a")], true),
    (&[Arrive(1), Arrive(2), Octets(3, b"a")], false),
    (&[Arrive(1), Arrive(2), End(1)], true),
    (&[Arrive(1), Arrive(2), End(3)], false),
    (&[Arrive(1), Arrive(2), ReadFails(1)], true),
    (&[Arrive(1), Arrive(2), ReadFails(3)], false),
    (&[Arrive(1), Arrive(2), Room(1, 1)], true),
    (&[Arrive(1), Arrive(2), Room(3, 1)], false),
    (&[Arrive(1), Arrive(2), WriteFails(1)], true),
    (&[Arrive(1), Arrive(2), WriteFails(3)], false),
    (&[Arrive(1), Room(1, 0)], false),
    (&[Arrive(1), Octets(1, b"")], false),
    (&[Tick], true),
    (&[Turn], true),
    // nothing is sent after the end
    (&[Arrive(1), End(1), Octets(1, b"a")], false),
    (&[Arrive(1), End(1), End(1)], false),
    (&[Arrive(1), End(1), ReadFails(1)], false),
    (&[Arrive(1), End(1), WriteFails(1)], true),
    (&[Arrive(1), ReadFails(1), Octets(1, b"a")], false),
    (&[Arrive(1), ReadFails(1), End(1)], false),
    (&[Arrive(1), ReadFails(1), ReadFails(1)], false),
    (&[Arrive(1), ReadFails(1), WriteFails(1)], true),
];

fn act_of(alloc: Global, step: Step) -> Result<Act, Fail> {
    Ok(match step {
        Arrive(conn) => Act::Arrive {
            conn: Conn(conn),
            credit: None,
        },
        ArriveWith(conn, credit) => Act::Arrive {
            conn: Conn(conn),
            credit: Some(credit),
        },
        Octets(conn, octets) => Act::Octets {
            conn: Conn(conn),
            octets: Bytes::of(alloc, octets).ok().ok_or("memory")?,
        },
        End(conn) => Act::End(Conn(conn)),
        ReadFails(conn) => Act::ReadFails(Conn(conn)),
        Room(conn, more) => Act::Room {
            conn: Conn(conn),
            more,
        },
        WriteFails(conn) => Act::WriteFails(Conn(conn)),
        Tick => Act::Tick,
        Turn => Act::Turn,
    })
}

fn schedule_of(alloc: Global, steps: &[Step]) -> Result<Schedule, Fail> {
    let mut schedule = Schedule::new(alloc);
    for step in steps {
        let act = act_of(alloc, *step)?;
        schedule.push(act).ok().ok_or("memory")?;
    }
    Ok(schedule)
}

fn follow(alloc: Global, steps: &[Step]) -> Result<MemNet, Fail> {
    let schedule = schedule_of(alloc, steps)?;
    if !schedule.sound() {
        return Err(Fail::new("the schedule"));
    }
    Ok(MemNet::new(alloc, schedule).ok().ok_or("memory")?)
}

fn told<N: Net>(net: &mut N, then: Then) -> (NetEvent, Option<NetRead>, [u8; 4]) {
    let mut room = [0; 4];
    let event = net.next();
    let Readable(conn) = event else {
        return (event, None, room);
    };
    match then {
        Wait => (event, None, room),
        Read => {
            let answer = net.read(conn, &mut room);
            (event, Some(answer), room)
        }
        ReadAndShut => {
            let answer = net.read(conn, &mut room);
            net.shut(conn);
            (event, Some(answer), room)
        }
    }
}

/// The place of the first row that a net tells otherwise.
fn told_otherwise<N: Net>(net: &mut N, rows: &[Told]) -> Option<usize> {
    for (place, (then, event, answer, octets)) in rows.iter().enumerate() {
        if told(net, *then) != (*event, *answer, *octets) {
            return Some(place);
        }
    }
    None
}

/// The place of the first run that goes otherwise, and of its first row that does.
fn other_run(alloc: Global, runs: &[(&[Step], &[Told])]) -> Result<Option<(usize, usize)>, Fail> {
    for (place, (steps, rows)) in runs.iter().enumerate() {
        let mut net = follow(alloc, steps)?;
        if net.listen(80) != Listening::Ready || !net.whole() {
            return Err(Fail::new("the port"));
        }
        if let Some(row) = told_otherwise(&mut net, rows) {
            return Ok(Some((place, row)));
        }
    }
    Ok(None)
}

#[test]
fn schedules_are_followed(rt: HostRuntime) -> Result<(), Fail> {
    assert_eq!(rt; other_run(rt.alloc(), RUNS)?, None);
    Ok(())
}

/// The event by which an act is told.
fn event_of(act: &Act) -> Option<NetEvent>
    ensures { result ≡ acts.event_of act.now }
{
    match act {
        Act::Arrive { conn, .. } => Some(Accept(*conn)),
        Act::Octets { conn, .. } => Some(Readable(*conn)),
        Act::End(conn) => Some(Readable(*conn)),
        Act::ReadFails(conn) => Some(Readable(*conn)),
        Act::Room { conn, .. } => Some(Writable(*conn)),
        Act::WriteFails(conn) => Some(Writable(*conn)),
        Act::Tick => Some(NetEvent::Tick),
        Act::Turn => Some(NetEvent::Turn),
    }
}

/// Whether a net tells each of these acts before the next one, and then stops. All that comes is read at once.
fn tells_each<N: Net>(net: &mut N, acts: &[Act]) -> bool {
    for act in acts {
        if event_of(act) != Some(told(net, Read).0) {
            return false;
        }
    }
    told(net, Read).0 == Stop
}

/// A schedule of which nothing is passed over, and no read leaves anything.
const TOLD: &[Step] = &[
    Arrive(1),
    Octets(1, b"ab"),
    Octets(1, b"abcd"),
    Tick,
    Arrive(2),
    Octets(2, b"c"),
    Room(1, 1),
    End(1),
    ReadFails(2),
    WriteFails(2),
    Turn,
];

#[test]
fn acts_are_told_in_order(rt: HostRuntime) -> Result<(), Fail> {
    let mut net = follow(rt.alloc(), TOLD)?;
    let schedule = schedule_of(rt.alloc(), TOLD)?;
    assert!(rt; tells_each(&mut net, schedule.acts()));
    Ok(())
}

/// Sends octets to a live connection, and notes what was taken. All that is said of it follows from what every net and every
/// watch owes.
fn send<N: Net, W: Watch>(out: &mut Outside<N, W>, to: Conn, octets: &[u8]) -> Option<usize>
    requires live { (N.state out.old.net).live to.0 ≡ true }
    requires some { 0 < length octets.now }
    ensures live { (N.state out.new.net).live to.0 ≡ true }
    ensures taken { IfSome result (λ count. (N.state out.old.net).tells ≡ true → (N.state out.new.net).taken to.0 ≡ (N.state out.old.net).taken to.0 ++ take count octets.now) }
    ensures others { (N.state out.old.net).tells ≡ true → (other : ℕ) → other ≢ to.0 → (N.state out.new.net).taken other ≡ (N.state out.old.net).taken other }
    ensures noted { IfSome result (λ count. IsNoted (W.told out.old.watch) (took to.0 (length octets.now) count) (W.told out.new.watch)) }
    ensures unnoted { IfNone result (W.told out.new.watch ≡ W.told out.old.watch) }
    ensures faults { (N.state out.old.net).faults ≤ (N.state out.new.net).faults }
    ensures cause { IfNone result (Rose (N.state out.old.net).faults (N.state out.new.net).faults) }
{
    match out.net.write(to, octets) {
        NetWrote::Took(count) => {
            out.watch.note(&Note::Took {
                conn: to,
                offered: octets.len() as u64,
                took: count as u64,
            });
            Some(count)
        }
        NetWrote::Failed => None,
    }
}

/// How much the connection that comes next takes of both pieces.
fn send_to_the_next<N: Net, W: Watch>(out: &mut Outside<N, W>) -> Option<(usize, usize)> {
    let Accept(conn) = out.net.next() else {
        return None;
    };
    let first = send(out, conn, b"Hel")?;
    let second = send(out, conn, b"lo")?;
    Some((first, second))
}

#[test]
fn what_is_taken_is_noted(rt: HostRuntime) -> Result<(), Fail> {
    let mut out = Outside {
        net: follow(rt.alloc(), &[ArriveWith(2, 4)])?,
        watch: Recorder::new(rt.alloc()),
        tally: Tally::new(),
    };
    assert_eq!(rt; send_to_the_next(&mut out), Some((3, 1)));
    assert_eq!(rt; out.net.taken(TWO), b"Hell".as_slice());
    assert_eq!(rt; out.net.taken(ONE), b"".as_slice());
    assert!(rt; out.net.whole());
    assert_eq!(rt; out.watch.count(), 2);
    for (place, (offered, took)) in [(3, 3), (2, 1)].iter().enumerate() {
        let took = Note::Took {
            conn: TWO,
            offered: *offered,
            took: *took,
        };
        if place < out.watch.count() {
            assert_eq!(rt; out.watch.at(place), took);
        }
    }
    Ok(())
}

/// Offers octets to a live connection, if there are any, and then shuts it, if that is asked.
fn offer<N: Net>(net: &mut N, conn: Conn, octets: &[u8], shuts: bool) -> Option<NetWrote>
    requires { (N.state net.old).live conn.0 ≡ true }
{
    if octets.is_empty() {
        return None;
    }
    let answer = net.write(conn, octets);
    if shuts {
        net.shut(conn);
    }
    Some(answer)
}

/// What comes next, and what its connection answers to these octets.
fn answered<N: Net>(net: &mut N, octets: &[u8], shuts: bool) -> (NetEvent, Option<NetWrote>) {
    match net.next() {
        Accept(conn) => (Accept(conn), offer(net, conn, octets, shuts)),
        Writable(conn) => (Writable(conn), offer(net, conn, octets, shuts)),
        event => (event, None),
    }
}

/// The place of the first row that a net answers otherwise.
fn answered_otherwise<N: Net>(net: &mut N, rows: &[Offer]) -> Option<usize> {
    for (place, (event, octets, answer, shuts)) in rows.iter().enumerate() {
        if answered(net, octets, *shuts) != (*event, *answer) {
            return Some(place);
        }
    }
    None
}

/// The place of the first schedule whose links take otherwise, and of the first row that is answered otherwise, if one is.
fn other_offer(
    alloc: Global,
    offers: &[(&[Step], &[Offer], &[u8])],
) -> Result<Option<(usize, Option<usize>)>, Fail> {
    for (place, (steps, rows, taken)) in offers.iter().enumerate() {
        let mut net = follow(alloc, steps)?;
        let row = answered_otherwise(&mut net, rows);
        if row.is_some() || net.taken(ONE) != *taken || !net.whole() {
            return Ok(Some((place, row)));
        }
    }
    Ok(None)
}

#[test]
fn links_take_what_acts_let_them(rt: HostRuntime) -> Result<(), Fail> {
    assert_eq!(rt; other_offer(rt.alloc(), OFFERS)?, None);
    Ok(())
}

/// The place of the first schedule that is sound where it is not to be, or the other way round.
fn other_soundness(alloc: Global, rows: &[(&[Step], bool)]) -> Result<Option<usize>, Fail> {
    for (place, (steps, sound)) in rows.iter().enumerate() {
        if schedule_of(alloc, steps)?.sound() != *sound {
            return Ok(Some(place));
        }
    }
    Ok(None)
}

/// Whether a schedule is sound whose last act sends so many octets.
fn allows(alloc: Global, count: usize) -> Result<bool, Fail> {
    let mut schedule = schedule_of(alloc, &[Arrive(1)])?;
    let octets = Bytes::from_vec(b"a".repeat(alloc, count)?);
    let act = Act::Octets { conn: ONE, octets };
    schedule.push(act).ok().ok_or("memory")?;
    Ok(schedule.sound())
}

#[test]
fn rules_of_schedules(rt: HostRuntime) -> Result<(), Fail> {
    assert_eq!(rt; other_soundness(rt.alloc(), SCHEDULES)?, None);
    assert!(rt; allows(rt.alloc(), 8_192)?);
    assert!(rt; !allows(rt.alloc(), 8_193)?);
    Ok(())
}
