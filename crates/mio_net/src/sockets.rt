//! The sockets of a net, and how far what is ready was told.

ghost use Rattle.std.specs.Prelude.{ℕ, ◌≡◌, ◌+◌, ◌<◌, ◌≤◌, Some, true, false, length};
ghost use Rattle.link_trait.specs.declared.net.NetEvent.TheVariants as event;
ghost use Rattle.link_trait.specs.Net.{CountsFault, Listens, Nexts, Reads, Writes, Shuts};
ghost use Rattle.mio_net.specs.Table.{is_live};

use crate::lingering::Lingering;
use crate::peers::{Peer, read_peer, tell_readable, tell_writable, token_of, write_peer};
use crate::timer::Timer;
use link_trait::{Listening, NetEvent, NetRead, NetWrote};
use mio::event::Event;
use mio::net::{TcpListener, TcpStream};
use mio::{Events, Interest, Poll, Token};
use std::alloc::{AllocError, Global};
use std::collections::BTreeMap;
use std::io::ErrorKind;
use std::net::{Ipv4Addr, SocketAddr};
use std::time::{Clock, Duration, Instant};
use std::{io, net};
use ws_kinds::Conn;

/// The most events of one turn.
const MOST_EVENTS: u32 = 4_096;

/// The most sockets that one poll reports.
const MOST_REPORTS: usize = 1_024;

/// The token of the socket that listens. Connections have numbers from 1.
const LISTENER: Token = Token(0);

/// What the next event begins with.
#[derive(Clone, Copy, PartialEq, Eq)]
enum Stage {
    /// A poll, which begins a turn.
    Polls,
    /// What the last poll reported and nobody looked at.
    Tells,
}

/// Whether connections wait to be accepted.
#[derive(Clone, Copy, PartialEq, Eq)]
enum Arrivals {
    NoneWaits,
    SomeMayWait,
    /// Accepting failed, for want of file descriptors or because a peer was gone. It is tried again after the next poll.
    Failed,
}

/// All that a net of live sockets holds.
#[derive(Drop)]
pub struct Sockets {
    poll: Option<Poll>,
    listener: Option<TcpListener>,
    port: Option<u16>,
    arrivals: Arrivals,
    peers: BTreeMap<u64, Peer>,
    lingering: Lingering,
    /// The greatest number of a connection so far.
    named: u64,
    faults: u64,
    /// How many more events this turn may have.
    room: u32,
    stage: Stage,
    /// What the last poll reported, and how many of these were looked at.
    reports: Events,
    looked_at: usize,
    timer: Timer,
    ghost fresh: { (conn : ℕ) → named < conn → is_live peers conn ≡ false },
}

/// One fault more.
fn count_fault(faults: &mut u64)
    ensures { CountsFault faults.old faults.new }
{
    *faults = faults.saturating_add(1);
}

/// A poll, and a listener at this port of this machine.
fn open(runtime: &impl net::Net, port: u16) -> io::Result<(Poll, TcpListener)> {
    let poll = Poll::new(runtime)?;
    let address = SocketAddr::from((Ipv4Addr::LOCALHOST, port));
    let mut listener = TcpListener::bind(runtime, address)?;
    poll.registry()
        .register(&mut listener, LISTENER, Interest::READABLE)?;
    Ok((poll, listener))
}

/// Waits until a socket is ready, at most for so long, and answers whether that went well.
fn poll_once(poll: &mut Option<Poll>, reports: &mut Events, patience: Duration) -> bool {
    match poll {
        Some(poll) => poll.poll(reports, Some(patience)).is_ok(),
        None => false,
    }
}

impl Sockets {
    ghost use Rattle.mio_net.specs.State.{state_of, MayTell};

    pub(crate) fn new(alloc: Global, now: Option<Instant>) -> Result<Sockets, AllocError> {
        Ok(Sockets {
            poll: None,
            listener: None,
            port: None,
            arrivals: Arrivals::NoneWaits,
            peers: BTreeMap::new(alloc),
            lingering: Lingering::new(alloc)?,
            named: 0,
            faults: 0,
            room: MOST_EVENTS,
            stage: Stage::Polls,
            reports: Events::with_capacity(alloc, MOST_REPORTS)?,
            looked_at: 0,
            timer: Timer::new(now),
        })
    }

    /// Opens the port, once: the sockets of a second one would stand in another poll.
    pub(crate) fn listen(&mut self, runtime: &impl net::Net, port: u16) -> Listening
        ensures { Listens port result (state_of self.old) (state_of self.new) }
    {
        if self.poll.is_some() {
            count_fault(&mut self.faults);
            return Listening::Failed;
        }
        let Ok((poll, listener)) = open(runtime, port) else {
            count_fault(&mut self.faults);
            return Listening::Failed;
        };
        self.poll = Some(poll);
        self.listener = Some(listener);
        self.port = Some(port);
        Listening::Ready
    }

    /// Waits until something is ready or a tick is due, and begins a turn. Where connections may still wait to be accepted it only looks.
    fn wait(&mut self) -> bool
        ensures whole { result ≡ true → state_of self.new ≡ state_of self.old }
        ensures failed { result ≡ false → Nexts event.Failed (state_of self.old) (state_of self.new) }
    {
        let patience = match self.arrivals {
            Arrivals::SomeMayWait => Duration::ZERO,
            Arrivals::NoneWaits | Arrivals::Failed => self.timer.patience(),
        };
        if !poll_once(&mut self.poll, &mut self.reports, patience) {
            count_fault(&mut self.faults);
            return false;
        }
        self.looked_at = 0;
        self.stage = Stage::Tells;
        if self.arrivals == Arrivals::Failed {
            self.arrivals = Arrivals::SomeMayWait;
        }
        true
    }

    /// Tells a tick where a second went by since the last one.
    fn tick(&mut self, now: io::Result<Instant>) -> Option<NetEvent>
        requires { 0 < self.old.room }
        ensures { MayTell result (state_of self.old) (state_of self.new) }
    {
        if !self.timer.is_due(now) {
            return None;
        }
        self.lingering.tick();
        self.room -= 1;
        Some(NetEvent::Tick)
    }

    /// What the last poll reported next.
    fn next_report(&mut self) -> Option<Event>
        ensures { state_of self.new ≡ state_of self.old }
    {
        let report = *self.reports.iter().as_slice().get(self.looked_at)?;
        self.looked_at += 1;
        Some(report)
    }

    /// Tells what a report says. One of a connection that was shut says nothing.
    fn tell(&mut self, report: &Event) -> Option<NetEvent>
        requires { 0 < self.old.room }
        ensures { MayTell result (state_of self.old) (state_of self.new) }
    {
        let token = report.token();
        if token == LISTENER {
            self.arrivals = Arrivals::SomeMayWait;
            return None;
        }
        let conn = Conn(token.0 as u64);
        let Some(peer) = self.peers.get(&conn.0) else {
            self.lingering.drain(&self.poll, conn);
            return None;
        };
        if report.is_writable() && !peer.writable {
            self.room -= 1;
            tell_writable(&self.poll, &mut self.peers, conn);
            return Some(NetEvent::Writable(conn));
        }
        let ended = report.is_read_closed() || report.is_error();
        if ended || report.is_readable() {
            self.room -= 1;
            tell_readable(&mut self.peers, conn, ended);
            return Some(NetEvent::Readable(conn));
        }
        None
    }

    /// Tells what the next of the reports says that says something.
    fn tell_next(&mut self) -> Option<NetEvent>
        requires { 0 < self.old.room }
        ensures { MayTell result (state_of self.old) (state_of self.new) }
    {
        'reports: for _ in 0..MOST_REPORTS {
            let report = self.next_report()?;
            let told = self.tell(&report);
            if told.is_some() {
                return told;
            }
        }
        None
    }

    /// The stream of a connection that waits.
    fn next_stream(&mut self) -> Option<TcpStream>
        ensures { state_of self.new ≡ state_of self.old }
    {
        match self.listener.as_ref()?.accept() {
            Ok((stream, _)) => Some(stream),
            Err(error) => {
                self.arrivals = match error.kind() {
                    ErrorKind::WouldBlock => Arrivals::NoneWaits,
                    _ => Arrivals::Failed,
                };
                None
            }
        }
    }

    /// Keeps a stream under the next number. One that cannot be kept is closed.
    fn admit(&mut self, mut stream: TcpStream, conn: Conn) -> Option<NetEvent>
        requires room { 0 < self.old.room }
        requires next { conn.0 ≡ self.old.named + 1 }
        ensures { MayTell result (state_of self.old) (state_of self.new) }
    {
        let _ = stream.set_nodelay(true);
        let registry = self.poll.as_ref()?.registry();
        registry
            .register(&mut stream, token_of(conn), Interest::READABLE)
            .ok()?;
        let peer = Peer {
            stream,
            due: false,
            writable: true,
            ended: false,
        };
        self.peers.insert(conn.0, peer).ok()?;
        self.named = conn.0;
        self.room -= 1;
        Some(NetEvent::Accept(conn))
    }

    /// The next connection, if one waits and can be kept.
    fn accept(&mut self) -> Option<NetEvent>
        requires { 0 < self.old.room }
        ensures { MayTell result (state_of self.old) (state_of self.new) }
    {
        if self.arrivals != Arrivals::SomeMayWait {
            return None;
        }
        let Some(number) = self.named.checked_add(1) else {
            self.arrivals = Arrivals::NoneWaits;
            return None;
        };
        let stream = self.next_stream()?;
        self.admit(stream, Conn(number))
    }

    /// Ends a turn. Reports that were not looked at are told in the next one.
    fn end_turn(&mut self) -> NetEvent
        ensures { Nexts result (state_of self.old) (state_of self.new) }
    {
        self.room = MOST_EVENTS;
        if self.reports.iter().as_slice().len() <= self.looked_at {
            self.stage = Stage::Polls;
        }
        NetEvent::Turn
    }

    /// What comes next without a wait. Connections are accepted last, so that a flood of them holds nobody back.
    fn go_on(&mut self) -> NetEvent
        requires { 0 < self.old.room }
        ensures { Nexts result (state_of self.old) (state_of self.new) }
    {
        if let Some(told) = self.tell_next() {
            return told;
        }
        if let Some(told) = self.accept() {
            return told;
        }
        self.end_turn()
    }

    pub(crate) fn next(&mut self, clock: &impl Clock) -> NetEvent
        ensures { Nexts result (state_of self.old) (state_of self.new) }
    {
        if self.room == 0 {
            return self.end_turn();
        }
        if self.stage == Stage::Tells {
            return self.go_on();
        }
        if !self.wait() {
            return NetEvent::Failed;
        }
        if let Some(told) = self.tick(Instant::now(clock)) {
            return told;
        }
        self.go_on()
    }

    pub(crate) fn read(&mut self, conn: Conn, room: &mut [u8]) -> NetRead
        requires { 0 < length room.old }
        ensures { Reads conn.0 room.new result (state_of self.old) (state_of self.new) }
    {
        match read_peer(&self.poll, &mut self.peers, conn, room) {
            Ok(0) => NetRead::End,
            Ok(count) => NetRead::Octets(count),
            Err(ErrorKind::WouldBlock) => NetRead::Later,
            Err(_) => {
                count_fault(&mut self.faults);
                NetRead::Failed
            }
        }
    }

    pub(crate) fn write(&mut self, conn: Conn, octets: &[u8]) -> NetWrote
        ensures { Writes conn.0 octets.now result (state_of self.old) (state_of self.new) }
    {
        match write_peer(&self.poll, &mut self.peers, conn, octets) {
            Ok(count) => NetWrote::Took(count),
            Err(_) => {
                count_fault(&mut self.faults);
                NetWrote::Failed
            }
        }
    }

    /// Takes a connection out of the table, and lets its socket linger.
    pub(crate) fn shut(&mut self, conn: Conn)
        ensures { Shuts conn.0 (state_of self.old) (state_of self.new) }
    {
        if let Some(peer) = self.peers.remove(&conn.0) {
            self.lingering.add(&self.poll, conn, peer.stream);
        }
    }
}
