//! The command `serve`, over nets in memory and over one that listens at no port.

ghost use Rattle.std.specs.Prelude.{None, false};
ghost use Rattle.link_trait.specs.Net.{CountsNetReadFaults, CountsNetWriteFaults};

use super::bus::filled;
use super::sink;
use crate::serve::serve_run;
use crate::status::Status;
use link_trait::{Listening, Net, NetEvent, NetRead, NetWrote, Outside};
use mem_net::MemNet;
use schedule_text::{read, report_link};
use std::test::*;
use topic_guard::{Test, TopicGuard, TopicRule};
use ws_kinds::{Config, Conn, Counter, Tally};

fn after_read(answer: NetRead, faults: u64) -> u64
    ensures { CountsNetReadFaults answer faults result }
{
    match answer {
        NetRead::Failed => faults.saturating_add(1),
        _ => faults,
    }
}

fn after_write(answer: NetWrote, faults: u64) -> u64
    ensures { CountsNetWriteFaults answer faults result }
{
    match answer {
        NetWrote::Took(_) => faults,
        NetWrote::Failed => faults.saturating_add(1),
    }
}

/// A net that listens at no port, and is as the inner one else. It counts its own faults, and tells nothing.
#[derive(Drop)]
struct DeafNet {
    inner: MemNet,
    faults: u64,
}

impl Net for DeafNet {
    ghost use Rattle.mem_net.specs.MemNet.{net_state};

    ghost state = { λ net. record (net_state net.inner) { tells = false; faults = net.faults; schedule = None } };

    fn listen(&mut self, port: u16) -> Listening {
        let _ = port;
        self.faults = self.faults.saturating_add(1);
        Listening::Failed
    }

    fn next(&mut self) -> NetEvent {
        self.inner.next()
    }

    fn read(&mut self, conn: Conn, room: &mut [u8]) -> NetRead {
        let answer = self.inner.read(conn, room);
        self.faults = after_read(answer, self.faults);
        answer
    }

    fn write(&mut self, conn: Conn, octets: &[u8]) -> NetWrote {
        let answer = self.inner.write(conn, octets);
        self.faults = after_write(answer, self.faults);
        answer
    }

    fn shut(&mut self, conn: Conn) {
        self.inner.shut(conn);
    }
}

/// A net that follows these acts, one a line.
pub(super) fn net_of(rt: &HostRuntime, acts: &str) -> Result<MemNet, Fail> {
    let text = format!(in rt.alloc(); "corked 1\n{}", filled(rt, acts)?)?;
    let schedule = read(rt.alloc(), text.as_bytes()).ok().ok_or("a schedule")?;
    if !schedule.sound() {
        return Err("a sound schedule".into());
    }
    Ok(MemNet::new(rt.alloc(), schedule)?)
}

/// Eight turns.
pub(super) const EIGHT: &str = ".\n.\n.\n.\n.\n.\n.\n.\n";

/// A connection that sends a message and ends.
const ONE: &str = "a 1 *\nr 1 ECHO\nr 1 818500000000'hello'\n.\n.\ne 1\n.\n";

/// The acts of a net, the most turns, the sink's calls that fail, how the run ends, and what is written, with the line of the
/// first connection's link behind it.
const RUNS: &[(&str, u64, &[u8], Status, &str)] = &[
    (EIGHT, 8, b"", Status::Done, "served 8\nlink 1 0 -\n"),
    (EIGHT, 1, b"", Status::Done, "served 1\nlink 1 0 -\n"),
    // nothing comes after the last act
    (EIGHT, 9, b"", Status::Done, "served 9\nlink 1 0 -\n"),
    (EIGHT, u64::MAX, b"", Status::Done, "served 9\nlink 1 0 -\n"),
    (
        ONE,
        1,
        b"",
        Status::Done,
        "served 1\nlink 1 0 REPLY8105'hello'\n",
    ),
    (
        ONE,
        u64::MAX,
        b"",
        Status::Done,
        "served 4\nlink 1 0 REPLY8105'hello'\n",
    ),
    (EIGHT, 8, b"\x01", Status::WriteFault, "link 1 0 -\n"),
];

/// The place of the first row with another end.
fn first_run(
    rt: &HostRuntime,
    rows: &[(&str, u64, &[u8], Status, &str)],
) -> Result<Option<usize>, Fail> {
    for (place, (acts, turns, fails, status, written)) in rows.iter().enumerate() {
        let mut out = Outside {
            net: net_of(rt, acts)?,
            watch: Counter::new(),
            tally: Tally::new(),
        };
        let mut sink = sink(rt, 8192, fails)?;
        let test: Test = Box::new(rt.alloc(), |_topic: &[u8]| true)?;
        let guard = TopicGuard::new(TopicRule::All, test);
        let ended = serve_run(
            rt.alloc(),
            Config::usual(),
            9001,
            (*turns).max(1),
            &guard,
            &mut out,
            &mut sink,
        );
        report_link(Conn(1), 0, out.net.taken(Conn(1)), &mut sink);
        if ended != *status || sink.octets() != filled(rt, written)?.as_bytes() {
            return Ok(Some(place));
        }
    }
    Ok(None)
}

/// How a run over a net ends that listens at no port, whether nothing is written then, and how often the net was asked.
fn deaf_run(rt: &HostRuntime) -> Result<(Status, bool, u64), Fail> {
    let mut out = Outside {
        net: DeafNet {
            inner: net_of(rt, EIGHT)?,
            faults: 0,
        },
        watch: Counter::new(),
        tally: Tally::new(),
    };
    let mut sink = sink(rt, 8192, b"")?;
    let test: Test = Box::new(rt.alloc(), |_topic: &[u8]| true)?;
    let guard = TopicGuard::new(TopicRule::All, test);
    let ended = serve_run(
        rt.alloc(),
        Config::usual(),
        9001,
        8,
        &guard,
        &mut out,
        &mut sink,
    );
    Ok((ended, sink.octets().is_empty(), out.net.faults))
}

#[test]
fn turns_are_made_and_told(rt: HostRuntime) -> Result<(), Fail> {
    assert_eq!(rt; first_run(&rt, RUNS)?, None);
    assert_eq!(rt; deaf_run(&rt)?, (Status::NetFault, true, 1));
    Ok(())
}
