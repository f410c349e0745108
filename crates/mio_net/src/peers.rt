//! The sockets of live connections, by number.

ghost use Rattle.std.specs.Prelude.{◌≡◌, ◌<◌, ◌≤◌, IfOk, IfErr, IfSome, true, false, length};
ghost use Rattle.link_trait.specs.Net.{Same, SameBut};
ghost use Rattle.mio_net.specs.Table.{is_live, is_due, is_writable};

use mio::net::TcpStream;
use mio::{Interest, Poll, Token};
use std::collections::BTreeMap;
use std::io::{ErrorKind, Read, Write};
use ws_kinds::Conn;

/// The socket of a live connection.
#[derive(Drop)]
pub struct Peer {
    pub(crate) stream: TcpStream,
    /// `Readable` was told, and it was not read since.
    pub(crate) due: bool,
    /// No write was short since `Accept` or `Writable` was told.
    pub(crate) writable: bool,
    /// The machine reported that the peer ended or failed. Octets may stand before that.
    pub(crate) ended: bool,
}

/// The token under which the machine reports the socket of a connection.
pub(crate) fn token_of(conn: Conn) -> Token {
    Token(conn.0 as usize)
}

/// What the machine is to report of a socket. That it takes octets again is asked for only after a write that was short, or each
/// registration would report it at once.
fn interests_of(writable: bool) -> Interest {
    match writable {
        true => Interest::READABLE,
        false => Interest::READABLE | Interest::WRITABLE,
    }
}

/// Has the next poll report what is ready at this socket, also what was reported before.
pub(crate) fn report_again(
    poll: &Option<Poll>,
    stream: &mut TcpStream,
    conn: Conn,
    interests: Interest,
) {
    if let Some(poll) = poll {
        let _ = poll
            .registry()
            .reregister(stream, token_of(conn), interests);
    }
}

/// The peer can be read. `ended`: its end or an error was reported with that.
pub(crate) fn tell_readable(peers: &mut BTreeMap<u64, Peer>, conn: Conn, ended: bool)
    requires { is_live peers.old conn.0 ≡ true }
    ensures live { Same (is_live peers.old) (is_live peers.new) }
    ensures due { is_due peers.new conn.0 ≡ true }
    ensures due_elsewhere { SameBut conn.0 (is_due peers.old) (is_due peers.new) }
    ensures writable { Same (is_writable peers.old) (is_writable peers.new) }
{
    if let Some(peer) = peers.get_mut(&conn.0) {
        peer.due = true;
        peer.ended = ended;
    }
}

/// The peer takes octets again. What can be read of it is told after the next poll.
pub(crate) fn tell_writable(poll: &Option<Poll>, peers: &mut BTreeMap<u64, Peer>, conn: Conn)
    requires { is_live peers.old conn.0 ≡ true }
    ensures live { Same (is_live peers.old) (is_live peers.new) }
    ensures due { Same (is_due peers.old) (is_due peers.new) }
    ensures writable { is_writable peers.new conn.0 ≡ true }
    ensures writable_elsewhere { SameBut conn.0 (is_writable peers.old) (is_writable peers.new) }
{
    if let Some(peer) = peers.get_mut(&conn.0) {
        peer.writable = true;
        report_again(poll, &mut peer.stream, conn, interests_of(true));
    }
}

/// Reads once. A read that gave less than there was room for has emptied the socket, and what comes later is reported anew, unless
/// the peer's end or an error was reported already: so the machine is asked to report again where the room was filled, or where such an
/// end is still to be read.
pub(crate) fn read_peer(
    poll: &Option<Poll>,
    peers: &mut BTreeMap<u64, Peer>,
    conn: Conn,
    room: &mut [u8],
) -> Result<usize, ErrorKind>
    ensures live { Same (is_live peers.old) (is_live peers.new) }
    ensures due { is_due peers.new conn.0 ≡ false }
    ensures due_elsewhere { SameBut conn.0 (is_due peers.old) (is_due peers.new) }
    ensures writable { Same (is_writable peers.old) (is_writable peers.new) }
    ensures bound { IfOk result (λ count. count ≤ length room.new) }
    ensures room { length room.new ≡ length room.old }
{
    let Some(peer) = peers.get_mut(&conn.0) else {
        return Err(ErrorKind::NotFound);
    };
    peer.due = false;
    match peer.stream.read(room) {
        Ok(0) => Ok(0),
        Ok(count) => {
            if peer.ended || count == room.len() {
                report_again(poll, &mut peer.stream, conn, interests_of(peer.writable));
            }
            Ok(count)
        }
        Err(error) => Err(error.kind()),
    }
}

/// Writes once. Where the socket did not take all, it is told as writable later.
pub(crate) fn write_peer(
    poll: &Option<Poll>,
    peers: &mut BTreeMap<u64, Peer>,
    conn: Conn,
    octets: &[u8],
) -> Result<usize, ErrorKind>
    ensures live { Same (is_live peers.old) (is_live peers.new) }
    ensures due { Same (is_due peers.old) (is_due peers.new) }
    ensures writable_elsewhere { SameBut conn.0 (is_writable peers.old) (is_writable peers.new) }
    ensures bound { IfOk result (λ count. count ≤ length octets.now) }
    ensures short { IfOk result (λ count. count < length octets.now → is_writable peers.new conn.0 ≡ false) }
    ensures whole { IfOk result (λ count. length octets.now ≤ count → is_writable peers.new conn.0 ≡ is_writable peers.old conn.0) }
    ensures failed { IfErr result (λ error. is_writable peers.new conn.0 ≡ is_writable peers.old conn.0) }
{
    let Some(peer) = peers.get_mut(&conn.0) else {
        return Err(ErrorKind::NotFound);
    };
    let count = match peer.stream.write(octets) {
        Ok(count) => count,
        Err(error) if error.kind() == ErrorKind::WouldBlock => 0,
        Err(error) => return Err(error.kind()),
    };
    if count < octets.len() {
        peer.writable = false;
        report_again(poll, &mut peer.stream, conn, interests_of(false));
    }
    Ok(count)
}
