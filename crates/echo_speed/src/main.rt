//! A program to measure: it sends back what comes in over live sockets, octet for octet, with no protocol above them. The words are
//! the port, from 1 to 65,535, and the most turns that it makes. A peer that does not take all that it is sent at once is shut.
#![tactic(auto)]

ghost use Rattle.std.specs.Prelude.{◌≡◌, ◌≤◌, true};

use link_trait::{Listening, Net, NetEvent, NetRead, NetWrote};
use mio_net::LiveNet;
use std::env;
use std::process::ExitCode;
use ws_kinds::Conn;

/// The most octets of one read.
const ROOM: usize = 65_536;

/// How a turn ended.
#[derive(Clone, Copy, PartialEq, Eq)]
enum Turn {
    Made,
    Stopped,
    Failed,
}

/// Sends back what one read gives.
fn echo<N: Net>(net: &mut N, conn: Conn, room: &mut [u8; ROOM])
    requires { (N.state net.old).live conn.0 ≡ true }
    ensures { (N.state net.new).room ≤ (N.state net.old).room }
{
    match net.read(conn, room) {
        NetRead::Octets(count) => match net.write(conn, &room[..count]) {
            NetWrote::Took(took) if took == count => {}
            _ => net.shut(conn),
        },
        NetRead::Later => {}
        NetRead::End | NetRead::Failed => net.shut(conn),
    }
}

fn run_turn<N: Net>(net: &mut N, room: &mut [u8; ROOM]) -> Turn {
    'turn: loop {
        match net.next() {
            NetEvent::Readable(conn) => echo(net, conn, room),
            NetEvent::Accept(_) | NetEvent::Writable(_) | NetEvent::Tick => {}
            NetEvent::Turn => return Turn::Made,
            NetEvent::Stop => return Turn::Stopped,
            NetEvent::Failed => return Turn::Failed,
        }
    }
}

/// Makes turns until as many were made, or one did not end as made.
fn run<N: Net>(net: &mut N, turns: u64) -> Turn {
    let mut room = [0u8; ROOM];
    for _ in 0..turns {
        let turn = run_turn(net, &mut room);
        if turn != Turn::Made {
            return turn;
        }
    }
    Turn::Made
}

/// The numbers that the words say.
fn numbers(rt: &HostRuntime) -> Option<(u16, u64)> {
    let mut words = env::args(rt).ok()?.skip(1);
    let port = words.next()?.parse::<u16>().ok()?;
    let turns = words.next()?.parse::<u64>().ok()?;
    Some((port, turns))
}

fn main(rt: HostRuntime) -> ExitCode {
    let Some((port, turns)) = numbers(&rt) else {
        return ExitCode::from(2);
    };
    let Ok(mut net) = LiveNet::new(rt, rt.alloc()) else {
        return ExitCode::from(7);
    };
    if net.listen(port) == Listening::Failed {
        return ExitCode::from(6);
    }
    match run(&mut net, turns) {
        Turn::Made => ExitCode::SUCCESS,
        Turn::Stopped | Turn::Failed => ExitCode::from(6),
    }
}
