//! The net.

use crate::sockets::Sockets;
use link_trait::{Listening, Net, NetEvent, NetRead, NetWrote};
use std::alloc::{AllocError, Global};
use std::net;
use std::time::{Clock, Instant};
use ws_kinds::Conn;

/// Connections to one port of this machine, at 127.0.0.1.
///
/// It tells each readiness until a call would block, `Turn` after the events of one poll or after 4,096 events, and `Tick` where at
/// least 1,000 milliseconds went by. It never tells `Stop`. A connection that cannot be accepted is passed over until the next poll,
/// at the latest until the next tick, and ends nothing. Connections have numbers from 1, and none is accepted after 2^64 - 1 of
/// them. Nagle's delay is off: what is written is sent at once.
///
/// A connection that was shut is not live, and nothing of it is told. Its writing side is ended, and what the peer still sends is read
/// and thrown away until the peer ends too, for at most two ticks, 1,048,576 octets and 256 connections at a time, of which the
/// oldest goes first. Only then is its socket closed.
///
/// A write takes what the socket has room for, which may be nothing. Where that is less than it was offered, `Writable` is told once the
/// socket takes octets again.
#[derive(Drop)]
pub struct LiveNet<R: net::Net + Clock + Drop> {
    runtime: R,
    sockets: Sockets,
}

impl<R: net::Net + Clock + Drop> LiveNet<R> {
    /// A net that does not listen yet. Until it does, `next` answers `Failed`. Where the clock of the machine cannot be read, no tick
    /// is told.
    pub fn new(runtime: R, alloc: Global) -> Result<LiveNet<R>, AllocError> {
        let sockets = Sockets::new(alloc, Instant::now(&runtime).ok())?;
        Ok(LiveNet { runtime, sockets })
    }
}

impl<R: net::Net + Clock + Drop> Net for LiveNet<R> {
    ghost use Rattle.mio_net.specs.State.{state_of};

    ghost state = { λ net. state_of net.sockets };

    fn listen(&mut self, port: u16) -> Listening {
        self.sockets.listen(&self.runtime, port)
    }

    fn next(&mut self) -> NetEvent {
        self.sockets.next(&self.runtime)
    }

    fn read(&mut self, conn: Conn, room: &mut [u8]) -> NetRead {
        self.sockets.read(conn, room)
    }

    fn write(&mut self, conn: Conn, octets: &[u8]) -> NetWrote {
        self.sockets.write(conn, octets)
    }

    fn shut(&mut self, conn: Conn) {
        self.sockets.shut(conn);
    }
}
