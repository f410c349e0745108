ghost use Rattle.std.specs.Prelude.{◌≡◌, ◌<◌, IfSome, true, length};

use crate::LiveNet;
use link_trait::{Listening, Net, NetEvent, NetRead, NetWrote};
use std::io::{Read, Write};
use std::net::{TcpListener, TcpStream};
use std::test::Fail;
use ws_kinds::Conn;

/// How many events are waited for at most: each wait ends with the next tick.
const PATIENCE: usize = 200;

/// The next connection that is accepted.
fn next_accepted<N: Net>(net: &mut N) -> Option<Conn>
    ensures { IfSome result (λ conn. (N.state net.new).live conn.0 ≡ true) }
{
    for _ in 0..PATIENCE {
        if let NetEvent::Accept(conn) = net.next() {
            return Some(conn);
        }
    }
    None
}

/// The next connection that can be read.
fn next_readable<N: Net>(net: &mut N) -> Option<Conn>
    ensures { IfSome result (λ conn. (N.state net.new).live conn.0 ≡ true) }
{
    for _ in 0..PATIENCE {
        if let NetEvent::Readable(conn) = net.next() {
            return Some(conn);
        }
    }
    None
}

/// Reads from the next connection that can be read.
fn read_next<N: Net>(net: &mut N, room: &mut [u8]) -> Option<(Conn, NetRead)>
    requires { 0 < length room.old }
{
    let conn = next_readable(net)?;
    Some((conn, net.read(conn, room)))
}

/// Writes to the next connection that can be read, without a read, and shuts it.
fn answer_and_shut<N: Net>(net: &mut N, answer: &[u8]) -> Option<NetWrote>
    requires { 0 < length answer.now }
{
    let conn = next_readable(net)?;
    let wrote = net.write(conn, answer);
    net.shut(conn);
    Some(wrote)
}

/// Writes to the next connection that is accepted, and answers how much of that it took.
fn fill_next<N: Net>(net: &mut N, octets: &[u8]) -> Option<(Conn, usize)>
    requires { 0 < length octets.now }
{
    let conn = next_accepted(net)?;
    match net.write(conn, octets) {
        NetWrote::Took(count) => Some((conn, count)),
        NetWrote::Failed => None,
    }
}

/// Writes to the next connection that takes octets again, and answers how much of that it took.
fn go_on_writing<N: Net>(net: &mut N, octets: &[u8]) -> Option<(Conn, usize)>
    requires { 0 < length octets.now }
{
    for _ in 0..PATIENCE {
        if let NetEvent::Writable(conn) = net.next() {
            return match net.write(conn, octets) {
                NetWrote::Took(count) => Some((conn, count)),
                NetWrote::Failed => None,
            };
        }
    }
    None
}

/// Passes all events over up to a tick, and answers whether one came.
fn pass_a_tick<N: Net>(net: &mut N) -> bool {
    for _ in 0..PATIENCE {
        if net.next() == NetEvent::Tick {
            return true;
        }
    }
    false
}

/// One peer ends after it sent. Another still sends when its connection is shut and after that, and gets the last octets and the end.
#[test]
fn peers_are_read_and_get_what_was_written_before_the_shut(rt: HostRuntime) -> Result<(), Fail> {
    let port = TcpListener::bind(&rt, "127.0.0.1:0")?.local_addr()?.port();
    let mut net = LiveNet::new(rt, rt.alloc())?;
    assert!(rt; net.next() == NetEvent::Failed);
    assert!(rt; net.listen(port) == Listening::Ready);
    assert!(rt; net.listen(port) == Listening::Failed);

    let mut room = [0u8; 8];
    let mut peer = TcpStream::connect(&rt, ("127.0.0.1", port))?;
    assert!(rt; next_accepted(&mut net) == Some(Conn(1)));
    peer.write_all(b"hello, all")?;
    assert!(rt; read_next(&mut net, &mut room) == Some((Conn(1), NetRead::Octets(8))));
    assert_eq!(rt; &room, b"hello, a");
    assert!(rt; read_next(&mut net, &mut room) == Some((Conn(1), NetRead::Octets(2))));
    drop(peer);
    assert!(rt; read_next(&mut net, &mut room) == Some((Conn(1), NetRead::End)));

    let mut peer = TcpStream::connect(&rt, ("127.0.0.1", port))?;
    assert!(rt; next_accepted(&mut net) == Some(Conn(2)));
    peer.write_all(&[0u8; 50_000])?;
    assert!(rt; answer_and_shut(&mut net, b"bye") == Some(NetWrote::Took(3)));
    peer.write_all(&[0u8; 50_000])?;
    assert!(rt; pass_a_tick(&mut net));
    peer.write_all(&[0u8; 50_000])?;
    let mut answer = [0u8; 3];
    peer.read_exact(&mut answer)?;
    assert_eq!(rt; &answer, b"bye");
    assert_eq!(rt; peer.read(&mut answer)?, 0);
    Ok(())
}

/// How much is offered to a peer that reads late: more than its socket takes at once.
fn too_much() -> usize {
    16_777_216
}

/// A peer that reads late takes a part of what it is sent, and more once it read that part.
#[test]
fn a_peer_that_reads_late_is_told_as_writable(rt: HostRuntime) -> Result<(), Fail> {
    let port = TcpListener::bind(&rt, "127.0.0.1:0")?.local_addr()?.port();
    let mut net = LiveNet::new(rt, rt.alloc())?;
    assert!(rt; net.listen(port) == Listening::Ready);
    let mut peer = TcpStream::connect(&rt, ("127.0.0.1", port))?;
    let most = too_much();
    let octets = b"a".repeat(rt.alloc(), most)?;
    assert!(rt; !octets.is_empty());
    let (conn, count) = fill_next(&mut net, &octets).ok_or("no connection")?;
    assert!(rt; conn == Conn(1) && count < most);
    let mut came = b"b".repeat(rt.alloc(), count)?;
    peer.read_exact(&mut came)?;
    assert!(rt; go_on_writing(&mut net, b"bye") == Some((Conn(1), 3)));
    let mut last = [0u8; 3];
    peer.read_exact(&mut last)?;
    assert_eq!(rt; &last, b"bye");
    Ok(())
}
