//! A net of which two writes fail.

ghost use Rattle.std.specs.Prelude.{None, false};
ghost use Rattle.link_trait.specs.Net.{CountsNextFaults, CountsNetReadFaults, CountsNetWriteFaults};

use link_trait::{Listening, Net, NetEvent, NetRead, NetWrote};
use ws_kinds::Conn;

/// A net around another one, which is as that one, but that two writes fail. It counts its own faults, and tells nothing.
#[derive(Drop)]
pub struct FailingNet<N> {
    pub inner: N,
    /// Which writes fail: 1 is the first one.
    pub failing: (u64, u64),
    /// The writes so far.
    pub writes: u64,
    pub faults: u64,
}

fn after_next(event: NetEvent, faults: u64) -> u64
    ensures { CountsNextFaults event faults result }
{
    match event {
        NetEvent::Failed => faults.saturating_add(1),
        _ => faults,
    }
}

fn after_read(answer: NetRead, faults: u64) -> u64
    ensures { CountsNetReadFaults answer faults result }
{
    match answer {
        NetRead::Failed => faults.saturating_add(1),
        _ => faults,
    }
}

fn after_write(answer: NetWrote, faults: u64) -> u64
    ensures { CountsNetWriteFaults answer faults result }
{
    match answer {
        NetWrote::Took(_) => faults,
        NetWrote::Failed => faults.saturating_add(1),
    }
}

impl<N: Net> Net for FailingNet<N> {
    ghost state = { λ net. record (N.state net.inner) { tells = false; faults = net.faults; schedule = None } };

    fn listen(&mut self, port: u16) -> Listening {
        match self.inner.listen(port) {
            Listening::Ready => Listening::Ready,
            Listening::Failed => {
                self.faults = self.faults.saturating_add(1);
                Listening::Failed
            }
        }
    }

    fn next(&mut self) -> NetEvent {
        let event = self.inner.next();
        self.faults = after_next(event, self.faults);
        event
    }

    fn read(&mut self, conn: Conn, room: &mut [u8]) -> NetRead {
        let answer = self.inner.read(conn, room);
        self.faults = after_read(answer, self.faults);
        answer
    }

    fn write(&mut self, conn: Conn, octets: &[u8]) -> NetWrote {
        self.writes = self.writes.saturating_add(1);
        if self.writes == self.failing.0 || self.writes == self.failing.1 {
            self.faults = self.faults.saturating_add(1);
            return NetWrote::Failed;
        }
        let answer = self.inner.write(conn, octets);
        self.faults = after_write(answer, self.faults);
        answer
    }

    fn shut(&mut self, conn: Conn) {
        self.inner.shut(conn);
    }
}
