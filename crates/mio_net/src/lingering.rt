//! Sockets of connections that were shut, until they are closed.

use crate::peers::report_again;
use mio::net::TcpStream;
use mio::{Interest, Poll};
use std::alloc::{AllocError, Global};
use std::io::{ErrorKind, Read};
use std::net::Shutdown;
use ws_kinds::Conn;

/// The most sockets that linger at once.
const MOST_SOCKETS: usize = 256;

/// The most octets of one peer that are thrown away.
const MOST_OCTETS: usize = 1_048_576;

/// A socket whose writing side is ended.
#[derive(Drop)]
struct LingeringSocket {
    conn: Conn,
    stream: TcpStream,
    /// How many more octets of the peer may be thrown away.
    octets_left: usize,
    /// A tick came since the connection was shut.
    saw_tick: bool,
}

/// The sockets that are closed soon, in the order in which their connections were shut.
///
/// Where a socket is closed while its peer sends, the machine answers with a reset, which overtakes the last octets that were
/// written. So only the writing side is ended at first, and what the peer sends is read and thrown away. The socket is closed when the
/// peer ends, fails or sent too much, at the second tick, or as the oldest of too many.
#[derive(Drop)]
pub struct Lingering {
    sockets: Vec<LingeringSocket>,
}

impl Lingering {
    pub(crate) fn new(alloc: Global) -> Result<Lingering, AllocError> {
        Ok(Lingering {
            sockets: Vec::with_capacity(alloc, MOST_SOCKETS)?,
        })
    }

    /// Ends the writing side of a socket, and keeps it. One that is broken already is closed at once.
    pub(crate) fn add(&mut self, poll: &Option<Poll>, conn: Conn, stream: TcpStream) {
        if stream.shutdown(Shutdown::Write).is_err() {
            return;
        }
        let mut socket = LingeringSocket {
            conn,
            stream,
            octets_left: MOST_OCTETS,
            saw_tick: false,
        };
        report_again(poll, &mut socket.stream, conn, Interest::READABLE);
        if self.sockets.len() >= MOST_SOCKETS {
            self.sockets.remove(0);
        }
        let _ = self.sockets.push(socket);
    }

    /// Reads once from the socket of this number, if it lingers here, and closes it if that was all.
    pub(crate) fn drain(&mut self, poll: &Option<Poll>, conn: Conn) {
        let place = self.sockets.iter().position(|socket| socket.conn == conn);
        let Some(place) = place else {
            return;
        };
        if !goes_on(&mut self.sockets[place], poll) {
            self.sockets.remove(place);
        }
    }

    /// Closes the sockets for which this is the second tick.
    pub(crate) fn tick(&mut self) {
        self.sockets.retain(|socket| !socket.saw_tick);
        for socket in self.sockets.iter_mut() {
            socket.saw_tick = true;
        }
    }
}

/// Throws away what one read gives. Answers whether more may come.
fn goes_on(socket: &mut LingeringSocket, poll: &Option<Poll>) -> bool {
    let mut room = [0u8; 16_384];
    match socket.stream.read(&mut room) {
        Ok(0) => false,
        Ok(count) => {
            let Some(octets_left) = socket.octets_left.checked_sub(count) else {
                return false;
            };
            socket.octets_left = octets_left;
            report_again(poll, &mut socket.stream, socket.conn, Interest::READABLE);
            true
        }
        Err(error) => error.kind() == ErrorKind::WouldBlock,
    }
}
