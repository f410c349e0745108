//! The command `replay`: a schedule is read and run over a net in memory, and the report of its run is written.

ghost use Rattle.std.specs.Prelude.{◌≡◌, ◌≤◌, ◌<◌, ◌^◌, ℕ, List, true, length, IfOk, IfErr};
ghost use Rattle.std.specs.List.{count_by};
ghost use Rattle.ws_kinds.specs.Ranges.{AreNotes};
ghost use Rattle.link_trait.specs.Link.{TellsAlike};
ghost use Rattle.mem_net.specs.MemNet.{FollowsSchedule};
ghost use Rattle.topic_guard.specs.Admits.{admits};
ghost use Rattle.ws_program.specs.Replayed.{is_turn_act};
ghost use Rattle.schedule_text.specs.Reading.{IsText, IsRefused};
ghost use Rattle.ws_program.specs.Replay.{ReplayEnds, RefusesAs, IsTaken, CanRun, HasRun, GivesAll, StopsReading, AnswersSchedule, AnswersText};
ghost use Rattle.ws_program.specs.Streams.{streams};

use crate::reads::MAX_READ;
use crate::report::{links_in_range, report};
use crate::status::Status;
use bus_handler::Bus;
use hub_core::Hub;
use link_trait::{Act, Got, Outside, Sink, Source};
use loop_runner::{Intakes, Ran, run};
use mem_net::{MemNet, Schedule};
use schedule_text::{Fault, ReadFault, read};
use std::alloc::{AllocError, Global};
use topic_guard::TopicGuard;
use ws_kinds::{Config, Recorder, Tally};

/// The most octets that are read: one more than a schedule's text may have, which shows that it is too long.
const MAX_INPUT: usize = 1_048_577;

/// Reads the text of a schedule from the source, to its end, runs it over a net in memory with the built-in handler on its
/// three routes, where peers may subscribe to the topics that the guard allows, and writes the report of the run to the sink: the line of each note, in order, and then the line of each
/// accepted connection's link, by ascending number.
///
/// Nothing is written before the run has ended. It ends
///
/// - as `Done` where all of the report is written;
/// - as `Refused` with the first line of the text that breaks a rule, and that rule; or with line 0 and `TooLong` where the
///   source has more than 1,048,576 octets, of which one more is read. Nothing is written then;
/// - as `ReadFault` at the first fault of the source, which it counted. Nothing is written then;
/// - as `WriteFault` at the first fault of the sink, which it counted. A front of the report is written then;
/// - as `OutOfMemory` where there was too little memory, also for a note or for what a link took. Nothing is written then.
pub fn replay_run<S: Source, K: Sink>(
    alloc: Global,
    config: Config,
    guard: &TopicGuard,
    source: &mut S,
    sink: &mut K,
) -> Status
    ensures { ReplayEnds (admits guard.now.rule) config result (streams S.Source K.Sink source.old sink.old) (streams S.Source K.Sink source.new sink.new) }
{
    match read_all(alloc, source) {
        Ok(octets) => replay_text(alloc, config, guard, &octets, sink),
        Err(status) => status,
    }
}

/// The octets of a source, to its end; or the first 1,048,577 of them, where there are so many.
fn read_all<S: Source>(alloc: Global, source: &mut S) -> Result<Vec<u8>, Status>
    ensures given { IfOk result (λ octets. GivesAll octets.items (S.left source.old) (S.left source.new) (S.faults source.old) (S.faults source.new)) }
    ensures stopped { IfErr result (λ status. StopsReading status (S.faults source.old) (S.faults source.new)) }
    ensures tells { TellsAlike (S.left source.old) (S.left source.new) }
    ensures later { S.faults source.old ≤ S.faults source.new }
{
    let mut octets = Vec::new(alloc);
    let mut piece = [0; MAX_READ];
    'reads: while octets.len() < MAX_INPUT {
        let most = MAX_READ.min(MAX_INPUT - octets.len());
        match source.read(&mut piece[..most]) {
            Got::Octets(count) => {
                if octets.extend_from_slice(&piece[..count]).is_err() {
                    return Err(Status::OutOfMemory);
                }
            }
            Got::End => return Ok(octets),
            Got::Failed => return Err(Status::ReadFault),
        }
    }
    Ok(octets)
}

/// Runs the schedule of a text, and writes its report.
fn replay_text<K: Sink>(
    alloc: Global,
    config: Config,
    guard: &TopicGuard,
    octets: &[u8],
    sink: &mut K,
) -> Status
    ensures answers { AnswersText (admits guard.now.rule) config octets.now result (K.written sink.old) (K.written sink.new) (K.faults sink.old) (K.faults sink.new) }
    ensures every_text { (acts : List Act) → IsText octets.now acts → IsTaken result }
    ensures every_fault { (line : ℕ) (fault : Fault) → IsRefused octets.now line fault → RefusesAs line fault result }
{
    match read(alloc, octets) {
        Ok(schedule) => replay_schedule(alloc, config, guard, schedule, sink),
        Err(ReadFault::Refused { line, fault }) => Status::Refused { line, fault },
        Err(ReadFault::Memory) => Status::OutOfMemory,
    }
}

/// Runs a schedule, and writes its report.
fn replay_schedule<K: Sink>(
    alloc: Global,
    config: Config,
    guard: &TopicGuard,
    schedule: Schedule,
    sink: &mut K,
) -> Status
    requires { CanRun schedule }
    ensures { AnswersSchedule (admits guard.now.rule) config schedule result (K.written sink.old) (K.written sink.new) (K.faults sink.old) (K.faults sink.new) }
{
    let Ok(replayed) = run_schedule(alloc, config, guard, schedule) else {
        return Status::OutOfMemory;
    };
    if report(&replayed.hub, &replayed.net, &replayed.watch, sink) {
        Status::Done
    } else {
        Status::WriteFault
    }
}

/// What there is after a run.
#[derive(Drop)]
pub(crate) struct Replayed {
    pub(crate) hub: Hub,
    pub(crate) net: MemNet,
    pub(crate) watch: Recorder,
}

/// Runs a schedule to its end. An error says that there was too little memory, also for a note or for what a link took.
pub(crate) fn run_schedule(
    alloc: Global,
    config: Config,
    guard: &TopicGuard,
    schedule: Schedule,
) -> Result<Replayed, AllocError>
    requires { CanRun schedule }
    ensures { IfOk result (λ replayed. HasRun (admits guard.now.rule) config schedule replayed.hub replayed.net replayed.watch) }
{
    let turns = turns_of(schedule.acts()) as u64 + 1;
    let mut hub = Hub::new(alloc, config)?;
    let mut intakes = Intakes::new(alloc, config.max_message());
    let Ok(routes) = Bus::routes(alloc) else {
        // For want of memory, which is the only fault.
        return Err(AllocError);
    };
    let net = MemNet::new(alloc, schedule)?;
    let watch = Recorder::new(alloc);
    let tally = Tally::new();
    let mut out = Outside { net, watch, tally };
    let ran = run(
        &mut hub,
        &mut intakes,
        &routes,
        &mut out,
        &mut Bus,
        guard,
        turns,
    );
    if !is_whole(&out.net, &out.watch) {
        return Err(AllocError);
    }
    match ran {
        Ran::Stopped(_) => {
            let Outside { net, watch, .. } = out;
            links_in_range(&hub, &net, &watch);
            Ok(Replayed { hub, net, watch })
        }
        Ran::Spent => unreachable!("there is one turn more than the acts make"),
        Ran::NetFault => unreachable!("a net in memory does not fail to say what is next"),
    }
}

/// Whether a run was recorded, with each of its notes, and no write failed.
pub(crate) fn is_whole(net: &MemNet, watch: &Recorder) -> bool
    ensures net { result ≡ true → net.now.whole ≡ true }
    ensures watch { result ≡ true → watch.now.whole ≡ true }
    ensures few { length watch.now.notes < 2 ^ 64 }
    ensures notes { AreNotes watch.now.notes }
    ensures follows { FollowsSchedule net.now }
{
    let unbroken = net.whole();
    watch.count() > 0 && watch.whole() && unbroken
}

/// How many of the acts are turns.
pub(crate) fn turns_of(acts: &[Act]) -> usize
    ensures { result ≡ count_by is_turn_act acts.now }
{
    acts.iter().filter(|act| is_turn(act)).count()
}

fn is_turn(act: &Act) -> bool
    ensures { result ≡ is_turn_act act.now }
{
    match act {
        Act::Turn => true,
        _ => false,
    }
}
