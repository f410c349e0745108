//! A network: connections that are accepted, read, written and shut, seen by its answers.

use ws_kinds::{Conn, Tally};

/// What came next.
#[derive(Clone, Copy, Debug, PartialEq, Eq)]
pub enum NetEvent {
    /// A connection was accepted. Its number is greater than every number accepted before.
    Accept(Conn),
    /// Octets, the end or a fault of this connection can be read.
    Readable(Conn),
    /// This connection takes octets again.
    Writable(Conn),
    /// Time went by: one tick.
    Tick,
    /// All that was ready has been told.
    Turn,
    /// Nothing will come any more.
    Stop,
    /// The net had a fault, which it counted.
    Failed,
}

/// What a read gave.
#[derive(Clone, Copy, Debug, PartialEq, Eq)]
pub enum NetRead {
    /// So many octets, at least 1, which now stand at the front of the slice that was read into.
    Octets(usize),
    /// The peer ended the stream.
    End,
    /// Nothing is ready.
    Later,
    /// The connection had a fault, which the net counted.
    Failed,
}

/// What a write took.
#[derive(Clone, Copy, Debug, PartialEq, Eq)]
pub enum NetWrote {
    /// So many octets off the front of the slice.
    Took(usize),
    /// The connection had a fault, which the net counted. Nothing was taken.
    Failed,
}

/// Whether a net listens.
#[derive(Clone, Copy, Debug, PartialEq, Eq)]
pub enum Listening {
    /// It does, at the port that was asked for.
    Ready,
    /// It had a fault, which it counted.
    Failed,
}

/// Many connections, and what happens on them, told one event at a time.
///
/// After a read that gave octets, a net in which more octets, the end or a fault of that connection stand ready tells
/// `Readable` again by itself. So a caller reads once for each `Readable`.
///
/// The count of faults never falls, and each answer `Failed` comes only where it rose in that call. It may rise in any call: a net may
/// count a fault that it passes over.
pub trait Net {
    ghost use Rattle.std.specs.Prelude.{◌≡◌, ◌<◌, true, length};
    ghost use Rattle.link_trait.specs.NetState.{NetState};
    ghost use Rattle.link_trait.specs.Net.{Listens, Nexts, Reads, Writes, Shuts};

    // What it holds.
    ghost state: { Self → NetState };

    /// Listens for connections at a port.
    fn listen(&mut self, port: u16) -> Listening
        ensures { Listens port result (state self.old) (state self.new) };

    /// What comes next.
    fn next(&mut self) -> NetEvent
        ensures { Nexts result (state self.old) (state self.new) };

    /// Reads from a live connection into the front of `room`, which may not be empty.
    fn read(&mut self, conn: Conn, room: &mut [u8]) -> NetRead
        requires live { (state self.old).live conn.0 ≡ true }
        requires some { 0 < length room.old }
        ensures { Reads conn.0 room.new result (state self.old) (state self.new) };

    /// Writes octets to a live connection, of which there is at least one. Its link takes from none to all of them, off the front.
    /// Where it takes fewer than all, `Writable` is told once it takes octets again.
    fn write(&mut self, conn: Conn, octets: &[u8]) -> NetWrote
        requires live { (state self.old).live conn.0 ≡ true }
        requires some { 0 < length octets.now }
        ensures { Writes conn.0 octets.now result (state self.old) (state self.new) };

    /// Ends a live connection.
    fn shut(&mut self, conn: Conn)
        requires { (state self.old).live conn.0 ≡ true }
        ensures { Shuts conn.0 (state self.old) (state self.new) };
}

/// What a server works on: a net, a watch that is told each note, and counts of copied octets.
#[derive(Drop)]
pub struct Outside<N, W> {
    pub net: N,
    pub watch: W,
    pub tally: Tally,
}
