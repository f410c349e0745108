//! The command `made`: a schedule is made from a seed and run over a net in memory, and the summary of its run is written.

ghost use Rattle.std.specs.Prelude.{◌≡◌, ◌+◌, length, IfOk, IfSome, OnOk};
ghost use Rattle.std.specs.List.{count_by};
ghost use Rattle.ws_kinds.specs.NoteValue.{note_value};
ghost use Rattle.mem_net.specs.MemNet.{net_state};
ghost use Rattle.topic_guard.specs.Admits.{admits};
ghost use Rattle.run_meaning.specs.Counts.{accepted_by, gather, number_of, total};
ghost use Rattle.ws_program.specs.Begun.{HasBegun, HasMade, IsUnrun, can_begin, seen};
ghost use Rattle.ws_program.specs.Replayed.{count_at, is_turn_act};
ghost use Rattle.ws_program.specs.Made.{Counts, IsSummaryLine, MadeEnds, is_counted, sums_over, with_link};

use crate::replay::{Replayed, is_whole, turns_of};
use crate::report::{accepted_by, links_in_range};
use crate::serve::NewServer;
use crate::status::Status;
use bus_handler::Bus;
use hub_core::Hub;
use link_trait::{Outside, Sink, write_all};
use loop_runner::{Ran, run};
use made_schedule::{Summary, made};
use mem_net::{MemNet, Schedule};
use std::alloc::{AllocError, Global};
use topic_guard::TopicGuard;
use ws_kinds::{Config, Conn, Note, Phase, Recorder, Tally};

/// Makes a schedule from the seed, runs it over a net in memory with the usual configuration and the built-in handler on its three
/// routes, where peers may subscribe to the topics that the guard allows, and writes one line, the summary of the run, to the sink.
///
/// Nothing is written before the run has ended. It ends
///
/// - as `Done` where all of the line is written;
/// - as `WriteFault` at the first fault of the sink, which it counted. A front of the line is written then;
/// - as `OutOfMemory` where there was too little memory, also for a note or for what a link took, or where a sum is 2^64 or more.
///   Nothing is written then.
pub fn made_run<K: Sink>(alloc: Global, seed: u64, guard: &TopicGuard, sink: &mut K) -> Status
    ensures { MadeEnds (admits guard.now.rule) seed result (K.written sink.old) (K.written sink.new) (K.faults sink.old) (K.faults sink.new) }
{
    let Ok(line) = line_of(alloc, seed, guard) else {
        return Status::OutOfMemory;
    };
    if write_all(sink, &line) {
        Status::Done
    } else {
        Status::WriteFault
    }
}

/// The line of the summary. An error says that there was too little memory, or that a sum is too great.
fn line_of(alloc: Global, seed: u64, guard: &TopicGuard) -> Result<Vec<u8>, AllocError>
    ensures { IfOk result (λ line. IsSummaryLine (admits guard.now.rule) seed line.items) }
{
    let schedule = made(alloc, seed)?;
    let replayed = run_made(alloc, guard, schedule)?;
    let Some(summary) = summary_of(&replayed.hub, &replayed.net, &replayed.watch) else {
        return Err(AllocError);
    };
    summary.line(alloc, seed)
}

/// Runs a schedule to its end, its first turn by itself. An error says that there was too little memory, also for a note or for what a
/// link took.
fn run_made(alloc: Global, guard: &TopicGuard, schedule: Schedule) -> Result<Replayed, AllocError>
    requires { can_begin schedule }
    ensures { IfOk result (λ replayed. HasMade (admits guard.now.rule) schedule replayed.hub replayed.net replayed.watch) }
{
    let turns = turns_of(schedule.acts()) as u64;
    let mut server = NewServer::new(alloc, Config::usual())?;
    let net = MemNet::new(alloc, schedule)?;
    let watch = Recorder::new(alloc);
    let tally = Tally::new();
    let mut out = Outside { net, watch, tally };
    first_turn(&mut server, guard, &mut out)?;
    other_turns(server, guard, out, turns)
}

/// Makes the first turn of a run. An error says that there was too little memory, also for a note or for what a link took.
fn first_turn(
    server: &mut NewServer,
    guard: &TopicGuard,
    out: &mut Outside<MemNet, Recorder>,
) -> Result<(), AllocError>
    requires { IsUnrun (seen server.old out.old) }
    ensures acts { OnOk result (out.new.net.acts ≡ out.old.net.acts) }
    ensures begun { OnOk result (HasBegun (admits guard.now.rule) (seen server.new out.new)) }
{
    let ran = run(
        &mut server.hub,
        &mut server.intakes,
        &server.routes,
        out,
        &mut Bus,
        guard,
        1,
    );
    if !is_whole(&out.net, &out.watch) {
        return Err(AllocError);
    }
    match ran {
        Ran::Spent => Ok(()),
        Ran::Stopped(_) => unreachable!("the acts make more turns"),
        Ran::NetFault => unreachable!("a net in memory does not fail to say what is next"),
    }
}

/// Makes all turns of a run but the first one, which was made: as many as the acts make. An error says that there was too little
/// memory, also for a note or for what a link took.
fn other_turns(
    mut server: NewServer,
    guard: &TopicGuard,
    mut out: Outside<MemNet, Recorder>,
    turns: u64,
) -> Result<Replayed, AllocError>
    requires begun { HasBegun (admits guard.now.rule) (seen server out) }
    requires turns { turns ≡ count_by is_turn_act out.net.acts }
    ensures { IfOk result (λ replayed. HasMade (admits guard.now.rule) out.net.acts replayed.hub replayed.net replayed.watch) }
{
    let ran = run(
        &mut server.hub,
        &mut server.intakes,
        &server.routes,
        &mut out,
        &mut Bus,
        guard,
        turns,
    );
    if !is_whole(&out.net, &out.watch) {
        return Err(AllocError);
    }
    match ran {
        Ran::Stopped(_) => {
            let NewServer { hub, .. } = server;
            let Outside { net, watch, .. } = out;
            links_in_range(&hub, &net, &watch);
            Ok(Replayed { hub, net, watch })
        }
        Ran::Spent => unreachable!("there is one turn more than the acts make"),
        Ran::NetFault => unreachable!("a net in memory does not fail to say what is next"),
    }
}

/// The summary of a run, unless a sum is too great.
fn summary_of(hub: &Hub, net: &MemNet, watch: &Recorder) -> Option<Summary>
    ensures { IfSome result (λ summary. Counts watch.now.notes (net_state net.now).taken (count_at hub.now) summary) }
{
    let sums = sums_of(hub, net, watch)?;
    Some(Summary {
        turns: count_of(watch, Counted::Turns),
        connections: sums.connections,
        messages: count_of(watch, Counted::Messages),
        items: sums.items,
        octets: sums.octets,
        dropped: count_of(watch, Counted::Drops),
        sum: sums.sum,
    })
}

/// What is counted of notes.
#[derive(Clone, Copy)]
enum Counted {
    /// Those that say that a turn ended.
    Turns,
    /// Those that say that a message was read.
    Messages,
    /// Those that say that an item was dropped.
    Drops,
}

impl Counted {
    fn counts(self, note: &Note<'_>) -> bool
        ensures { result ≡ is_counted self (note_value note.now) }
    {
        match self {
            Counted::Turns => match *note {
                Note::Turn => true,
                _ => false,
            },
            Counted::Messages => match *note {
                Note::Message { .. } => true,
                _ => false,
            },
            Counted::Drops => match *note {
                Note::Dropped { .. } => true,
                _ => false,
            },
        }
    }
}

/// How many of the notes count.
fn count_of(watch: &Recorder, counted: Counted) -> u64
    ensures { result ≡ number_of (is_counted counted) watch.now.notes }
{
    let mut count = 0;
    'notes: for place in 0..watch.count() {
        if counted.counts(&watch.at(place)) {
            count += 1;
        }
    }
    count
}

/// Sums over connections.
#[derive(Clone, Copy)]
struct Sums {
    /// How many there are.
    connections: u64,
    /// Their items.
    items: u64,
    /// How many octets their links took.
    octets: u64,
    /// The sum of these octets.
    sum: u64,
}

impl Sums {
    /// The sums with one connection more, unless one of them is too great.
    fn with(self, items: u64, taken: &[u8]) -> Option<Sums>
        ensures { IfSome result (λ sums. sums ≡ with_link items taken.now self) }
    {
        Some(Sums {
            connections: self.connections.checked_add(1)?,
            items: self.items.checked_add(items)?,
            octets: self.octets.checked_add(taken.len() as u64)?,
            sum: self.sum.checked_add(sum_of(taken)?)?,
        })
    }
}

/// The sum of octets, unless it is too great.
fn sum_of(octets: &[u8]) -> Option<u64>
    ensures { IfSome result (λ sum. sum ≡ total octets.now) }
{
    let mut sum: u64 = 0;
    'octets: for octet in octets {
        sum = sum.checked_add(u64::from(*octet))?;
    }
    Some(sum)
}

/// The sums over the connections that were accepted, unless one of them is too great.
fn sums_of(hub: &Hub, net: &MemNet, watch: &Recorder) -> Option<Sums>
    ensures { IfSome result (λ sums. sums ≡ sums_over (count_at hub.now) (net_state net.now).taken (gather accepted_by watch.now.notes)) }
{
    let mut sums = Sums {
        connections: 0,
        items: 0,
        octets: 0,
        sum: 0,
    };
    'notes: for place in 0..watch.count() {
        if let Some(conn) = accepted_by(&watch.at(place)) {
            sums = sums.with(items_of(hub, conn), net.taken(conn))?;
        }
    }
    Some(sums)
}

/// How many items were put for a connection: none for one that is gone, though its Closed event may still be due.
fn items_of(hub: &Hub, conn: Conn) -> u64
    ensures { result ≡ count_at hub.now conn.0 }
{
    match hub.phase(conn) {
        None => 0,
        Some(Phase::Gone) => 0,
        Some(Phase::Head) => hub.numbered(conn),
        Some(Phase::Open) => hub.numbered(conn),
        Some(Phase::Leaving) => hub.numbered(conn),
        Some(Phase::Ending) => hub.numbered(conn),
    }
}
