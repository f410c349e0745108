//! What a row of the tests says of a hub, and whether a hub is so.

ghost use Rattle.std.specs.Prelude.{◌≡◌, [], IfOk};

use super::calls::{Call, Part, play};
use super::failing_net::FailingNet;
use crate::Hub;
use link_trait::{Act, Outside};
use mem_net::{MemNet, Schedule};
use std::test::*;
use topic_guard::TopicGuard;
use ws_kinds::{Config, Conn, Left, Note, Phase, Recorder, Tally, Why};

/// A note.
#[derive(Clone, Copy)]
pub enum Line<'a> {
    /// All of so many octets was taken.
    Took(Conn, u64),
    /// It is admitted by `Call::Admit`.
    Opened(Conn),
    Gone(Conn, Left),
    Unserved(Conn, u8, Why),
    Is(Note<'a>),
}

/// A hub to which six connections come.
pub struct Row<'a> {
    /// Which writes fail: 1 is the first one, and 0 none.
    pub failing: (u64, u64),
    pub max_conns: u32,
    pub calls: &'a [(Conn, Call<'a>)],
    /// So many notes stand before those that are compared.
    pub start: usize,
    pub lines: &'a [Line<'a>],
    /// The octets that links took.
    pub taken: &'a [(Conn, &'a [u8])],
    pub phases: &'a [(Conn, Option<Phase>)],
    /// The entries at last, before and after the Closed events are handed out.
    pub entries: (usize, usize),
    /// The Closed events that there are at last.
    pub closed: &'a [(Conn, u16, &'a [u8])],
    /// The writes that failed.
    pub faults: u64,
}

/// A net on which six connections arrive, and of which two writes fail.
fn net(rt: &HostRuntime, failing: (u64, u64)) -> Result<FailingNet<MemNet>, Fail> {
    let mut schedule = Schedule::new(rt.alloc());
    for number in 1..=6 {
        let arrival = Act::Arrive {
            conn: Conn(number),
            credit: None,
        };
        schedule.push(arrival).ok().ok_or("memory")?;
    }
    if !schedule.sound() {
        return Err(Fail::new("the schedule"));
    }
    Ok(FailingNet {
        inner: MemNet::new(rt.alloc(), schedule).ok().ok_or("memory")?,
        failing,
        writes: 0,
        faults: 0,
    })
}

/// A hub of so many connections, for messages of at most 125 octets.
fn hub_of(rt: &HostRuntime, max_conns: u32) -> Result<Hub, Fail>
    ensures unnamed { IfOk result (λ hub. hub.named ≡ 0) }
    ensures empty { IfOk result (λ hub. hub.entries ≡ []) }
{
    let config = Config::checked(125, 1_000, 30, 60, 10, max_conns).ok_or("numbers")?;
    Ok(Hub::new(rt.alloc(), config).ok().ok_or("memory")?)
}

fn note_of(line: Line<'_>) -> Note<'_> {
    match line {
        Line::Took(conn, count) => Note::Took {
            conn,
            offered: count,
            took: count,
        },
        Line::Opened(conn) => Note::Opened {
            conn,
            route: 3,
            param: b"room",
        },
        Line::Gone(conn, left) => Note::Gone { conn, left },
        Line::Unserved(conn, order, why) => Note::Unserved { conn, order, why },
        Line::Is(note) => note,
    }
}

/// Whether the notes of a watch are these, from `start` on.
fn is_noted(watch: &Recorder, start: usize, lines: &[Line<'_>]) -> bool {
    let mut place = start;
    for line in lines {
        if place >= watch.count() || watch.at(place) != note_of(*line) {
            return false;
        }
        place += 1;
    }
    watch.count() == place
}

/// Whether the links took these octets.
fn is_taken(net: &MemNet, taken: &[(Conn, &[u8])]) -> bool {
    for (conn, octets) in taken {
        if net.taken(*conn) != *octets {
            return false;
        }
    }
    true
}

/// Whether connections are in these phases, and nothing is held for them.
fn is_standing(hub: &Hub, phases: &[(Conn, Option<Phase>)]) -> bool {
    for (conn, phase) in phases {
        if hub.phase(*conn) != *phase || hub.held(*conn) > 0 {
            return false;
        }
    }
    true
}

/// Whether the next Closed event is of this connection, with this code and this reason.
fn is_closed(hub: &mut Hub, conn: Conn, code: u16, reason: &[u8]) -> bool {
    match hub.next_closed() {
        Some(parting) => {
            parting.conn == conn && parting.code == code && parting.reason.as_slice() == reason
        }
        None => false,
    }
}

/// Whether these are the Closed events, each handed out once.
fn is_parted(hub: &mut Hub, closed: &[(Conn, u16, &[u8])]) -> bool {
    for (conn, code, reason) in closed {
        if !is_closed(hub, *conn, *code, reason) {
            return false;
        }
    }
    hub.next_closed().is_none()
}

/// Whether a hub has so many entries, and is full where they are the most that there may be.
fn has_entries(hub: &Hub, count: usize, max_conns: u32) -> bool {
    hub.count() == count && hub.full() == (count == max_conns as usize)
}

/// What of a hub at last differs from a row, if anything does. Nothing is to be told of connections.
fn other_end(hub: &mut Hub, row: &Row<'_>) -> Option<&'static str> {
    if !is_standing(hub, row.phases) {
        return Some("phases");
    }
    if !has_entries(hub, row.entries.0, row.max_conns) || hub.next_told(Conn(0)).is_some() {
        return Some("entries");
    }
    if !is_parted(hub, row.closed) {
        return Some("closed");
    }
    if !has_entries(hub, row.entries.1, row.max_conns) {
        return Some("left");
    }
    None
}

/// What differs first from a row whose calls come behind other ones, if anything does.
pub fn difference(
    rt: &HostRuntime,
    before: Part<'_>,
    guard: &TopicGuard,
    row: &Row<'_>,
) -> Result<Option<&'static str>, Fail> {
    let calls = row.calls;
    let mut out = Outside {
        net: net(rt, row.failing)?,
        watch: Recorder::new(rt.alloc()),
        tally: Tally::new(),
    };
    let mut hub = hub_of(rt, row.max_conns)?;
    if play(&mut hub, &mut out, before, Part { guard, calls }).is_some() {
        return Ok(Some("answers"));
    }
    if !is_noted(&out.watch, row.start, row.lines) {
        return Ok(Some("notes"));
    }
    if !is_taken(&out.net.inner, row.taken) || out.net.faults != row.faults {
        return Ok(Some("octets"));
    }
    Ok(other_end(&mut hub, row))
}

/// The first row that differs with this guard of topics, and what differs from it.
pub fn first_other(
    rt: &HostRuntime,
    guard: &TopicGuard,
    rows: &[Row<'_>],
) -> Result<Option<(usize, &'static str)>, Fail> {
    let nothing = Part { guard, calls: &[] };
    for (place, row) in rows.iter().enumerate() {
        if let Some(what) = difference(rt, nothing, guard, row)? {
            return Ok(Some((place, what)));
        }
    }
    Ok(None)
}
